// Leaving a view: doubt.
ghost use Rattle.std.specs.Prelude.{◌≡◌, ◌<◌};
ghost use Rattle.wire.specs.Kinds.{last_view};
ghost use Rattle.protocol.specs.Replay.{of_works};
ghost use Rattle.protocol.specs.States.{turned};
ghost use Rattle.protocol.specs.Steps.{doubts};
ghost use Rattle.replica.specs.Calls.{scene, Does};

use crate::phases::may_doubt;
use crate::replica::Replica;
use crate::sending::{check_room, send};
use machines::machine::Machine;
use protocol::fault::ReplicaFault;
use protocol::state::{Phase, REPLICAS, State};
use seals::register::Register;
use wire::draft::Content;
use wire::kind::{Kind, LAST_VIEW};

// Turns to the next view.
fn turn(state: &mut State)
    requires { state.old.view < last_view }
    ensures { state.new ≡ turned state.old }
{
    state.view += 1;
    state.phase = Phase::Turning;
    state.reports = [None; REPLICAS];
    state.closings = [None; REPLICAS];
}

impl<M: Machine> Replica<M> {
    // Says that the view does not serve, and turns to the next; answers the length of the message.
    pub fn doubt<R: Register>(
        &mut self,
        register: &mut R,
        out: &mut [u8],
    ) -> Result<u64, ReplicaFault>
        ensures { Does (of_works M.meaning) doubts result (scene M.state R.state self.old register.old out.old) (scene M.state R.state self.new register.new out.new) }
    {
        if !may_doubt(self.state.phase) {
            return Err(ReplicaFault::NotAllowed);
        }
        if self.state.view >= LAST_VIEW {
            return Err(ReplicaFault::NoneLeft);
        }
        check_room(register, out, Kind::Doubt.message_length(0))?;
        let length = send(register, &self.state, &Content::Doubt, out);
        turn(&mut self.state);
        Ok(length)
    }
}
