// Carrying out the next request once its commits were heard.
ghost use Rattle.std.specs.Prelude.{◌≡◌, ◌<◌, ◌||◌, ◌==◌};
ghost use Rattle.wire.specs.Counting.{names};
ghost use Rattle.wire.specs.Kinds.{last_number};
ghost use Rattle.protocol.specs.Certificates.{every};
ghost use Rattle.protocol.specs.Replay.{of_works};
ghost use Rattle.protocol.specs.States.{with_executed};
ghost use Rattle.protocol.specs.Steps.{carries_out, all_heard};
ghost use Rattle.replica.specs.Calls.{scene, Does};

use crate::phases::group_of;
use crate::replica::Replica;
use crate::sending::{check_room, send};
use machines::machine::Machine;
use protocol::fault::ReplicaFault;
use protocol::state::{Phase, State};
use seals::register::Register;
use wire::draft::Content;
use wire::entry::LogEntry;
use wire::kind::Kind;
use wire::mask::names;

// A primary's vote is its prepare, a follower's the commit heard.
fn all_voted(members: &[u8], primary: u8, commits: u16) -> bool
    ensures { result ≡ every members.now (λ g. (g == primary) || names commits g) }
{
    members
        .iter()
        .all(|member| *member == primary || names(commits, *member))
}

fn next_is_voted(state: &State) -> bool
    requires { state.now.executed < last_number }
    ensures { result ≡ all_heard state.now state.now.executed }
{
    let group = group_of(state);
    let commits = state.commits_heard[usize::from(state.executed)];
    all_voted(group.members(), group.primary(), commits)
}

// Enters the next number in the log.
fn enter_next(state: &mut State)
    requires { state.old.executed < last_number }
    ensures { state.new ≡ with_executed state.old }
{
    let place = usize::from(state.executed);
    let request = state.requests[place];
    let view = state.view;
    state.log[place] = LogEntry { view, request };
    state.executed += 1;
    state.logged = state.logged.max(state.executed);
}

impl<M: Machine> Replica<M> {
    // Has the machine do the next request's work and replies; answers the outcome.
    pub fn carry_out<R: Register>(
        &mut self,
        register: &mut R,
        out: &mut [u8],
    ) -> Result<u64, ReplicaFault>
        ensures { Does (of_works M.meaning) carries_out result (scene M.state R.state self.old register.old out.old) (scene M.state R.state self.new register.new out.new) }
    {
        if self.state.phase != Phase::Working {
            return Err(ReplicaFault::NotAllowed);
        }
        if self.state.executed >= self.state.prepared {
            return Err(ReplicaFault::OutOfTurn);
        }
        if !next_is_voted(&self.state) {
            return Err(ReplicaFault::TooFew);
        }
        check_room(register, out, Kind::Reply.message_length(1))?;
        let request = self.state.requests[usize::from(self.state.executed)];
        let outcome = self.machine.apply(request.work());
        let content = Content::Reply {
            number: u32::from(self.state.executed) + 1,
            request,
            outcome,
        };
        send(register, &self.state, &content, out);
        enter_next(&mut self.state);
        Ok(outcome)
    }
}
