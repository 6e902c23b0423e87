// Sending: a message is written at the start of the lent buffer and sealed.
// Register and buffer are lent to each call as two parameters: a struct of two `&mut` would have to be built at each call and hide what comes back.
ghost use Rattle.std.specs.Prelude.{◌≡◌, ◌≤◌, true, length};
ghost use Rattle.wire.specs.Drafts.{stating};
ghost use Rattle.wire.specs.Laws.{Fits};
ghost use Rattle.wire.specs.Writing.{size};
ghost use Rattle.protocol.specs.Certificates.{message};
ghost use Rattle.replica.specs.Sending.{room_for, Sealed, Starts};

use protocol::fault::ReplicaFault;
use protocol::state::State;
use seals::fault::RegisterFault;
use seals::register::Register;
use wire::draft::{Content, Draft};

// The buffer, and then the register, must have room for a message of that length.
pub(crate) fn check_room<R: Register>(
    register: &mut R,
    out: &[u8],
    len: usize,
) -> Result<(), ReplicaFault>
    ensures answer { result ≡ room_for len (length out.now) (R.state register.old) }
    ensures unchanged { R.state register.new ≡ R.state register.old }
{
    if out.len() < len {
        return Err(ReplicaFault::ShortBuffer);
    }
    if !register.has_room(len) {
        return Err(RegisterFault::Full.into());
    }
    Ok(())
}

// Sends what a replica says in its view, once there is room for it; answers the length.
pub(crate) fn send<R: Register>(
    register: &mut R,
    state: &State,
    content: &Content<'_>,
    out: &mut [u8],
) -> u64
    requires ranges { Fits state.now.config state.now.number (stating state.now.view content.now) }
    requires buffer { size (stating state.now.view content.now) ≤ length out.old }
    requires room { (R.state register.old).fits (size (stating state.now.view content.now)) ≡ true }
    ensures answer { result ≡ size (stating state.now.view content.now) }
    ensures sealed { Sealed state.now.number (message state.now.number (stating state.now.view content.now)) (R.state register.old) (R.state register.new) }
    ensures written { Starts (message state.now.number (stating state.now.view content.now)) out.old out.new }
{
    let draft = Draft {
        replica: state.number,
        view: state.view,
        content: *content,
    };
    let length = draft.write(state.config, out).unwrap().unwrap();
    register.seal(state.number, &out[..length]).unwrap();
    length as u64
}
