// The press queue: jobs that wait for a press, the oldest first.
ghost use Rattle.std.specs.Prelude.{◌≡◌, ◌≤◌};
ghost use Rattle.arrayvec.specs.ArrayVec.{array_vec_len};
ghost use Rattle.machines.specs.declared.queue_work.QueueWork.TheVariants.{Put, Take};
ghost use Rattle.machines.specs.Outcomes.{outcome_of};
ghost use Rattle.machines.specs.Queues.{most_jobs, press_queue, queue_does};

use crate::machine::Machine;
use crate::queue_work::QueueWork;
use crate::reason::Reason;
use arrayvec::ArrayVec;

// how many jobs may wait at most
pub const JOBS: usize = 16;

// The jobs that wait, the oldest first.
#[derive(Drop)]
pub struct PressQueue {
    jobs: ArrayVec<u32, JOBS>,
    ghost within: { array_vec_len jobs ≤ most_jobs },
}

impl PressQueue {
    pub fn new() -> PressQueue
        ensures { result.jobs.items ≡ press_queue.fresh }
    {
        PressQueue {
            jobs: ArrayVec::new(),
        }
    }

    fn put(&mut self, job: u32) -> Result<u64, Reason>
        ensures state { self.new.jobs.items ≡ (queue_does self.old.jobs.items (Put job)).0 }
        ensures outcome { outcome_of result ≡ (queue_does self.old.jobs.items (Put job)).1 }
    {
        self.jobs.try_push(job).map_err(|_| Reason::QueueFull)?;
        Ok(self.jobs.len() as u64)
    }

    fn take(&mut self) -> Result<u64, Reason>
        ensures state { self.new.jobs.items ≡ (queue_does self.old.jobs.items Take).0 }
        ensures outcome { outcome_of result ≡ (queue_does self.old.jobs.items Take).1 }
    {
        self.jobs.pop_at(0).map(u64::from).ok_or(Reason::QueueEmpty)
    }

    // Each machine has its own `perform`, and `apply` is one line: a trait for the two would be longer.
    fn perform(&mut self, work: u64) -> Result<u64, Reason>
        ensures state { self.new.jobs.items ≡ (press_queue.step self.old.jobs.items work).0 }
        ensures outcome { outcome_of result ≡ (press_queue.step self.old.jobs.items work).1 }
    {
        match QueueWork::try_from(work)? {
            QueueWork::Put { job } => self.put(job),
            QueueWork::Take => self.take(),
        }
    }
}

impl Machine for PressQueue {
    ghost meaning = { press_queue };

    ghost state = { λ q. q.jobs.items };

    fn reset(&mut self) {
        self.jobs.clear();
    }

    fn apply(&mut self, work: u64) -> u64 {
        self.perform(work).unwrap_or_else(Reason::outcome)
    }
}
