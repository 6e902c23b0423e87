// Closing: naming the reports that are held.
ghost use Rattle.std.specs.Prelude.{◌≡◌, ◌<◌, ◌≤◌};
ghost use Rattle.wire.specs.Counting.{count};
ghost use Rattle.protocol.specs.Replay.{of_works};
ghost use Rattle.protocol.specs.Selecting.{holds, mask_of};
ghost use Rattle.protocol.specs.States.{most_replicas, with_closing};
ghost use Rattle.protocol.specs.Steps.{closes};
ghost use Rattle.replica.specs.Calls.{scene, Does};

use crate::replica::Replica;
use crate::sending::{check_room, send};
use machines::machine::Machine;
use protocol::fault::ReplicaFault;
use protocol::state::{Phase, State};
use seals::register::Register;
use wire::draft::Content;
use wire::kind::Kind;

fn is_held(state: &State, replica: u8) -> bool
    ensures { result ≡ holds state.now replica }
{
    matches!(state.reports.get(usize::from(replica)), Some(Some(_)))
}

fn count_held(state: &State, n: u8) -> usize
    ensures { result ≡ count n (holds state.now) }
{
    (0..n).filter(|&replica| is_held(state, replica)).count()
}

// A `for`: a fold over a filter, with `<<` and with `wrapping_shl`, and a `for` over a filter were tried; the equation with
// the mask, or the bound of the shift, stays open.
fn mask_held(state: &State, n: u8) -> u16
    requires { n ≤ most_replicas }
    ensures { result ≡ mask_of n (holds state.now) }
{
    let mut mask = 0;
    for replica in 0..n {
        if is_held(state, replica) {
            mask |= 1 << replica;
        }
    }
    mask
}

// Notes the mask of a replica's closing.
fn note_closing(state: &mut State, phase: Phase, replica: u8, mask: u16)
    requires { replica < most_replicas }
    ensures { state.new ≡ with_closing state.old phase replica mask }
{
    state.closings[usize::from(replica)] = Some(mask);
    state.phase = phase;
}

impl<M: Machine> Replica<M> {
    // Names the reports that it holds, at least t + 1; answers the length of the message.
    pub fn close<R: Register>(
        &mut self,
        register: &mut R,
        out: &mut [u8],
    ) -> Result<u64, ReplicaFault>
        ensures { Does (of_works M.meaning) closes result (scene M.state R.state self.old register.old out.old) (scene M.state R.state self.new register.new out.new) }
    {
        if self.state.phase != Phase::Gathering {
            return Err(ReplicaFault::NotAllowed);
        }
        let n = self.state.config.n();
        if count_held(&self.state, n) <= usize::from(self.state.config.t()) {
            return Err(ReplicaFault::TooFew);
        }
        check_room(register, out, Kind::Closing.message_length(1))?;
        let mask = mask_held(&self.state, n);
        let length = send(register, &self.state, &Content::Closing { mask }, out);
        let number = self.state.number;
        note_closing(&mut self.state, Phase::Closed, number, mask);
        Ok(length)
    }
}
