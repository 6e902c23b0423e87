// The laws of the groups, each carried by the contract of a function that does nothing.
ghost use Rattle.groups.specs.Laws.{Sized, Within, Led, Met, Shared, Complete};

pub fn each_group_has_t_plus_one_of_the_replicas()
    ensures sized { Sized }
    ensures within { Within }
{}

pub fn each_primary_is_a_member()
    ensures { Led }
{}

pub fn any_t_plus_one_replicas_meet_any_group()
    ensures { Met }
{}

pub fn any_two_groups_share_a_member()
    ensures { Shared }
{}

pub fn each_choice_of_t_plus_one_replicas_is_one_row()
    ensures { Complete }
{}
