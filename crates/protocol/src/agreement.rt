// Agreement of every run of a new cluster, whatever machine its replicas run, carried by the contract of a function that does nothing.
ghost use Rattle.protocol.specs.Agreement.{Agreement};
ghost use Rattle.protocol.specs.Replay.{of_works};

use machines::machine::Machine;

pub fn every_run_agrees<M: Machine>()
    ensures agrees { Agreement (of_works M.Machine.meaning) }
{}
