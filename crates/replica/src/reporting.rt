// Reporting the log in a new view.
ghost use Rattle.std.specs.Prelude.{◌≡◌, ◌<◌};
ghost use Rattle.protocol.specs.Replay.{of_works};
ghost use Rattle.protocol.specs.States.{reported, most_replicas};
ghost use Rattle.protocol.specs.Steps.{reports};
ghost use Rattle.replica.specs.Calls.{scene, Does};

use crate::phases::group_of;
use crate::replica::Replica;
use crate::sending::{check_room, send};
use machines::machine::Machine;
use protocol::fault::ReplicaFault;
use protocol::state::{HeldReport, Phase, State};
use seals::register::Register;
use wire::draft::Content;
use wire::kind::Kind;

// A member of the group holds its own report and gathers, another replica steps aside.
fn hold_own(state: &mut State)
    requires { state.old.number < most_replicas }
    ensures { state.new ≡ reported state.old }
{
    if !group_of(state).contains(state.number) {
        state.phase = Phase::Aside;
        return;
    }
    let len = state.logged;
    let entries = state.log;
    state.reports[usize::from(state.number)] = Some(HeldReport { len, entries });
    state.phase = Phase::Gathering;
}

impl<M: Machine> Replica<M> {
    // Reports the whole log in the view it turned to; answers the length of the message.
    pub fn report<R: Register>(
        &mut self,
        register: &mut R,
        out: &mut [u8],
    ) -> Result<u64, ReplicaFault>
        ensures { Does (of_works M.meaning) reports result (scene M.state R.state self.old register.old out.old) (scene M.state R.state self.new register.new out.new) }
    {
        if self.state.phase != Phase::Turning {
            return Err(ReplicaFault::NotAllowed);
        }
        check_room(
            register,
            out,
            Kind::Report.message_length(self.state.logged),
        )?;
        let content = Content::Report {
            entries: self.log(),
        };
        let length = send(register, &self.state, &content, out);
        hold_own(&mut self.state);
        Ok(length)
    }
}
