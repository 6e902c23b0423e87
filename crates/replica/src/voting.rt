// The primary's calls: order and repeat.
ghost use Rattle.std.specs.Prelude.{◌≡◌, ◌<◌, ◌&&◌, true, length};
ghost use Rattle.wire.specs.Kinds.{last_number};
ghost use Rattle.protocol.specs.Replay.{of_works};
ghost use Rattle.protocol.specs.States.{with_prepared, working, leads};
ghost use Rattle.protocol.specs.Steps.{orders, repeats, prepare_step};
ghost use Rattle.replica.specs.Calls.{scene, Does, Leaves};

use crate::phases::may_order;
use crate::replica::Replica;
use crate::sending::{check_room, send};
use machines::machine::Machine;
use protocol::fault::ReplicaFault;
use protocol::state::State;
use seals::register::Register;
use wire::draft::Content;
use wire::kind::{Kind, LAST_NUMBER};
use wire::request::Request;

// Takes a request as the next number, with these commits heard.
fn prepare_next(state: &mut State, request: Request, commits: u16)
    requires { state.old.prepared < last_number }
    ensures { state.new ≡ with_prepared state.old request commits }
{
    let place = usize::from(state.prepared);
    state.requests[place] = request;
    state.commits_heard[place] = commits;
    state.prepared += 1;
}

impl<M: Machine> Replica<M> {
    // Prepares a request as the next number; answers the number.
    fn prepare<R: Register>(
        &mut self,
        register: &mut R,
        request: Request,
        out: &mut [u8],
    ) -> Result<u64, ReplicaFault>
        requires { working self.old.state.phase ≡ true }
        ensures { Leaves (of_works M.meaning) (prepare_step (R.state register.old).sealed (R.state register.old).fits (length out.old) self.old.state request) result (scene M.state R.state self.old register.old out.old) (scene M.state R.state self.new register.new out.new) }
    {
        if self.state.prepared >= LAST_NUMBER {
            return Err(ReplicaFault::NoneLeft);
        }
        check_room(register, out, Kind::Prepare.message_length(1))?;
        let number = u32::from(self.state.prepared) + 1;
        let content = Content::Prepare { number, request };
        send(register, &self.state, &content, out);
        prepare_next(&mut self.state, request, 0);
        Ok(u64::from(number))
    }

    // Gives a new request the next number and prepares it; answers the number.
    pub fn order<R: Register>(
        &mut self,
        register: &mut R,
        request: Request,
        out: &mut [u8],
    ) -> Result<u64, ReplicaFault>
        ensures { Does (of_works M.meaning) (orders request) result (scene M.state R.state self.old register.old out.old) (scene M.state R.state self.new register.new out.new) }
    {
        if !may_order(&self.state) {
            return Err(ReplicaFault::NotAllowed);
        }
        if self.state.prepared < self.state.selected {
            return Err(ReplicaFault::OutOfTurn);
        }
        self.prepare(register, request, out)
    }

    // Prepares the next request selected, again under its number; answers the number.
    pub fn repeat<R: Register>(
        &mut self,
        register: &mut R,
        out: &mut [u8],
    ) -> Result<u64, ReplicaFault>
        ensures { Does (of_works M.meaning) repeats result (scene M.state R.state self.old register.old out.old) (scene M.state R.state self.new register.new out.new) }
    {
        if !may_order(&self.state) {
            return Err(ReplicaFault::NotAllowed);
        }
        if self.state.prepared >= self.state.selected {
            return Err(ReplicaFault::OutOfTurn);
        }
        let request = self.state.selection[usize::from(self.state.prepared)];
        self.prepare(register, request, out)
    }
}
