// A journal of seals in given memory. Looking a pair up reads every entry.
ghost use Rattle.std.specs.Prelude.{take};
ghost use Rattle.seals.specs.Layout.{Whole};

use crate::entry::{Entry, contains};
use crate::fault::RegisterFault;
use crate::log::EntryLog;
use crate::register::Register;

#[derive(Drop)]
pub struct Journal<'a> {
    pub(crate) log: EntryLog<'a>,
    ghost whole: { Whole (take log.used log.memory.now) },
}

impl<'a> Journal<'a> {
    ghost use Rattle.std.specs.Prelude.{◌≡◌, length};
    ghost use Rattle.seals.specs.Registers.{nothing};
    ghost use Rattle.seals.specs.Journals.{journal_state, new_journal_fits};

    // an empty journal, whatever the memory held
    pub fn new(memory: &'a mut [u8]) -> Journal<'a>
        ensures nothing_sealed { (journal_state result).sealed ≡ nothing }
        ensures room { (journal_state result).then_fits ≡ new_journal_fits (length memory.old) }
    {
        Journal {
            log: EntryLog::new(memory),
        }
    }
}

impl<'a> Register for Journal<'a> {
    ghost use Rattle.seals.specs.Journals.{journal_state};

    ghost state = { journal_state };

    fn is_sealed(&mut self, replica: u8, bytes: &[u8]) -> bool {
        contains(self.log.in_use(), Entry { replica, bytes })
    }

    fn has_room(&mut self, length: usize) -> bool {
        self.log.offset_for(length).is_some()
    }

    fn seal(&mut self, replica: u8, bytes: &[u8]) -> Result<(), RegisterFault> {
        let entry = Entry { replica, bytes };
        if contains(self.log.in_use(), entry) {
            return Ok(());
        }
        self.log.append(entry).ok_or(RegisterFault::Full)?;
        Ok(())
    }
}
