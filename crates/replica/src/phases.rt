// A replica's phase and role.
ghost use Rattle.std.specs.Prelude.{◌≡◌, ◌&&◌, ◌||◌};
ghost use Rattle.groups.specs.Asked.{members_of};
ghost use Rattle.groups.specs.Groups.{group};
ghost use Rattle.protocol.specs.States.{working, gathering, closed, leads};

use groups::group::Group;
use protocol::state::{Phase, State};

// The group that serves the replica's view.
pub(crate) fn group_of(state: &State) -> Group
    ensures { members_of result ≡ group state.now.config state.now.view }
{
    Group::serving(state.config, state.view)
}

pub(crate) fn may_doubt(phase: Phase) -> bool
    ensures { result ≡ working phase || (gathering phase || closed phase) }
{
    matches!(phase, Phase::Working | Phase::Gathering | Phase::Closed)
}

pub(crate) fn may_order(state: &State) -> bool
    ensures { result ≡ working state.now.phase && leads state.now }
{
    state.phase == Phase::Working && state.number == group_of(state).primary()
}
