// The setting of a cluster: how many replicas it has.
ghost use Rattle.std.specs.Prelude.{◌≡◌};
ghost use Rattle.wire.specs.Configs.{config_of, faults, replicas};

use crate::fault::ReadFault;

#[derive(Clone, Copy, PartialEq, Eq, Debug)]
pub enum ClusterSize {
    Three,
    Five,
}

// A cluster has n = 2t + 1 replicas and bears t Byzantine ones.
#[derive(Clone, Copy, PartialEq, Eq, Debug)]
pub struct ClusterConfig {
    size: ClusterSize,
}

impl ClusterConfig {
    pub fn new(n: u8) -> Result<ClusterConfig, ReadFault>
        ensures { result ≡ config_of n }
    {
        match n {
            3 => Ok(ClusterConfig {
                size: ClusterSize::Three,
            }),
            5 => Ok(ClusterConfig {
                size: ClusterSize::Five,
            }),
            _ => Err(ReadFault::Setting),
        }
    }

    pub fn size(&self) -> ClusterSize
        ensures { result ≡ self.now.size }
    {
        self.size
    }

    // how many Byzantine replicas are borne
    pub fn t(&self) -> u8
        ensures { result ≡ faults self.now }
    {
        match self.size {
            ClusterSize::Three => 1,
            ClusterSize::Five => 2,
        }
    }

    // how many replicas there are
    pub fn n(&self) -> u8
        ensures { result ≡ replicas self.now }
    {
        match self.size {
            ClusterSize::Three => 3,
            ClusterSize::Five => 5,
        }
    }
}
