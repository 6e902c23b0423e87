// What one may ask of a replica.
ghost use Rattle.std.specs.Prelude.{◌≡◌};
ghost use Rattle.protocol.specs.States.{entries};

use crate::replica::Replica;
use machines::machine::Machine;
use protocol::state::Phase;
use wire::config::ClusterConfig;
use wire::entry::LogEntry;

impl<M: Machine> Replica<M> {
    pub fn config(&self) -> ClusterConfig
        ensures { result ≡ self.now.state.config }
    {
        self.state.config
    }

    pub fn number(&self) -> u8
        ensures { result ≡ self.now.state.number }
    {
        self.state.number
    }

    pub fn view(&self) -> u32
        ensures { result ≡ self.now.state.view }
    {
        self.state.view
    }

    pub fn phase(&self) -> Phase
        ensures { result ≡ self.now.state.phase }
    {
        self.state.phase
    }

    pub fn prepared(&self) -> u8
        ensures { result ≡ self.now.state.prepared }
    {
        self.state.prepared
    }

    pub fn executed(&self) -> u8
        ensures { result ≡ self.now.state.executed }
    {
        self.state.executed
    }

    pub fn selected(&self) -> u8
        ensures { result ≡ self.now.state.selected }
    {
        self.state.selected
    }

    // The log as far as it is filled: the entry of number n stands at n - 1.
    pub fn log(&self) -> &[LogEntry]
        ensures { result.now ≡ entries self.now.state }
    {
        &self.state.log[0..usize::from(self.state.logged)]
    }
}
