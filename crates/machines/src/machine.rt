// What a replica asks of the machine that it runs.
ghost use Rattle.std.specs.Prelude.{◌≡◌};
ghost use Rattle.machines.specs.Machines.{StateMachine, next, outcome};

// A maker gives the meaning, the state in it that a value stands for, and the two calls.
pub trait Machine {
    ghost meaning: { StateMachine };

    ghost state: { Self → meaning.State };

    // makes the machine fresh
    fn reset(&mut self)
        ensures is_fresh { state self.new ≡ meaning.fresh };

    // does a work and answers its outcome
    fn apply(&mut self, work: u64) -> u64
        ensures moves_by_the_step { state self.new ≡ next meaning (state self.old) work }
        ensures answers_by_the_step { result ≡ outcome meaning (state self.old) work };
}
