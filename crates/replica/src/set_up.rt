// Setting a replica up.
ghost use Rattle.std.specs.Prelude.{◌≡◌, IfOk};
ghost use Rattle.protocol.specs.States.{new_state};
ghost use Rattle.replica.specs.Calls.{state_in, set_up_of};

use crate::replica::Replica;
use groups::group::Group;
use machines::machine::Machine;
use protocol::fault::ReplicaFault;
use protocol::state::{NUMBERS, Phase, REPLICAS, State};
use wire::config::ClusterConfig;
use wire::entry::LogEntry;
use wire::fault::ReadFault;
use wire::request::Request;

fn new_state(config: ClusterConfig, number: u8) -> State
    ensures { result ≡ new_state config number }
{
    let phase = if Group::serving(config, 0).contains(number) {
        Phase::Working
    } else {
        Phase::Aside
    };
    let blank = Request::blank();
    State {
        config,
        number,
        view: 0,
        phase,
        prepared: 0,
        executed: 0,
        selected: 0,
        logged: 0,
        requests: [blank; NUMBERS],
        selection: [blank; NUMBERS],
        log: [LogEntry {
            view: 0,
            request: blank,
        }; NUMBERS],
        commits_heard: [0; NUMBERS],
        reports: [None; REPLICAS],
        closings: [None; REPLICAS],
    }
}

impl<M: Machine + Drop> Replica<M> {
    // A replica of a cluster of that size, in view 0, with its machine made fresh.
    // A size other than 3 and 5, and a number outside the cluster, are refused.
    pub fn new(size: u8, number: u8, machine: M) -> Result<Replica<M>, ReplicaFault>
        ensures state { state_in result ≡ set_up_of size number }
        ensures fresh { IfOk result (λ replica. M.state replica.machine ≡ M.meaning.fresh) }
    {
        let config = ClusterConfig::new(size)?;
        if number >= config.n() {
            return Err(ReadFault::Setting.into());
        }
        let mut machine = machine;
        machine.reset();
        let state = new_state(config, number);
        Ok(Replica { state, machine })
    }
}
