// Masks: the bit of value 2^h names replica h.
ghost use Rattle.std.specs.Prelude.{◌≡◌};
ghost use Rattle.wire.specs.Counting.{count, names};
ghost use Rattle.wire.specs.Reading.{may_close};

use crate::config::ClusterConfig;

// Whether a mask names a replica; a replica from 16 up is named by none.
pub fn names(mask: u16, replica: u8) -> bool
    ensures { result ≡ names mask replica }
{
    replica < 16 && (mask >> replica) % 2 == 1
}

// How many replicas below n a mask names.
fn count_named(mask: u16, n: u8) -> usize
    ensures { result ≡ count n (names mask) }
{
    (0..n).filter(|&replica| names(mask, replica)).count()
}

// At least t + 1 replicas are named, and none from n up.
pub(crate) fn may_close(config: ClusterConfig, mask: u16) -> bool
    ensures { result ≡ may_close config mask }
{
    let n = config.n();
    u32::from(mask) < 1 << n && usize::from(config.t()) < count_named(mask, n)
}
