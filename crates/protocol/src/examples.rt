// Worked examples, carried by the contract of a function that does nothing.
ghost use Rattle.protocol.specs.Examples.{TwoClose, OneIsTooFew, HighestViewWins, DoubtMoves, NoViewLeft, FirstRequest};

#[tactic(auto, unfolding(crate::specs::Certificates::message))]
pub fn steps_and_a_run_come_out_as_worked_by_hand()
    ensures two_close { TwoClose }
    ensures one_is_too_few { OneIsTooFew }
    ensures highest_view_wins { HighestViewWins }
    ensures doubt_moves { DoubtMoves }
    ensures no_view_left { NoViewLeft }
    ensures first_request { FirstRequest }
{}
