// The works of the press queue. Their bytes are operation (1), zero (3), job (4).
ghost use Rattle.std.specs.Prelude.{◌≡◌, ok_or};
ghost use Rattle.machines.specs.declared.reason.Reason.TheVariants.{NoSuchWork};
ghost use Rattle.machines.specs.Queues.{WritesQueueWork, queue_read};

use crate::reason::Reason;

// The first bytes: constants, since the operations are the cases of `QueueWork`, and each byte is read and written at one place.
const PUT: u8 = 4;

const TAKE: u8 = 5;

#[derive(Clone, Copy, PartialEq, Eq, Debug)]
pub enum QueueWork {
    Put { job: u32 },
    Take,
}

// the work that these eight bytes are, if they are one of the press queue's
impl TryFrom<u64> for QueueWork {
    type Error = Reason;

    ghost try_from_gives = { λ work r. r ≡ ok_or (queue_read work) NoSuchWork };

    fn try_from(work: u64) -> Result<QueueWork, Reason> {
        match work.to_be_bytes() {
            [PUT, 0, 0, 0, j0, j1, j2, j3] => Ok(QueueWork::Put {
                job: u32::from_be_bytes([j0, j1, j2, j3]),
            }),
            [TAKE, 0, 0, 0, 0, 0, 0, 0] => Ok(QueueWork::Take),
            _ => Err(Reason::NoSuchWork),
        }
    }
}

impl From<QueueWork> for u64 {
    ghost from_gives = { WritesQueueWork };

    fn from(work: QueueWork) -> u64 {
        match work {
            QueueWork::Put { job } => {
                let [j0, j1, j2, j3] = job.to_be_bytes();
                u64::from_be_bytes([PUT, 0, 0, 0, j0, j1, j2, j3])
            }
            QueueWork::Take => u64::from_be_bytes([TAKE, 0, 0, 0, 0, 0, 0, 0]),
        }
    }
}
