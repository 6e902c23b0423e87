// A journal beside an index of hash slots. Looking a pair up tries the slots that its hash names.
ghost use Rattle.std.specs.Prelude.{◌≡◌, true};
ghost use Rattle.seals.specs.Logs.{entry_at};
ghost use Rattle.seals.specs.Slots.{Reached, contents, filled, holdable, vacant};

use crate::entry::Entry;
use crate::fault::RegisterFault;
use crate::fnv::fnv1a_pair;
use crate::log::EntryLog;
use crate::register::Register;
use std::ops::Range;

// the value of an empty slot; offsets stay below it. Callers lend slots as numbers of 32 bits, so a number stands for none
const EMPTY: u32 = 4294967295;

// a journal, slots that are each empty or hold the offset of an entry, and how many are empty
// The count is kept, since has_room would else read every slot.
#[derive(Drop)]
pub struct IndexedJournal<'a> {
    pub(crate) log: EntryLog<'a>,
    pub(crate) slots: &'a mut [u32],
    pub(crate) empty: usize,
    ghost readable: { filled (entry_at log) slots.now ≡ true },
    ghost counted: { empty ≡ vacant (contents (entry_at log) slots.now) },
    ghost reached: { Reached (contents (entry_at log) slots.now) },
}

impl<'a> IndexedJournal<'a> {
    ghost use Rattle.std.specs.Prelude.{◌<◌, ◌-◌, ℕ, None, IfSome, find, is_some, length, slice_index_or};
    ghost use Rattle.std.specs.List.{range_with_len};
    ghost use Rattle.std.specs.Option.{option_map};
    ghost use Rattle.seals.specs.Registers.{nothing};
    ghost use Rattle.seals.specs.Layout.{pair_of};
    ghost use Rattle.seals.specs.Slots.{ends_at, probed};
    ghost use Rattle.seals.specs.Indexes.{index_contents, index_state, new_index_fits};

    // an empty journal and empty slots, whatever memory and slots held
    pub fn new(memory: &'a mut [u8], slots: &'a mut [u32]) -> IndexedJournal<'a>
        ensures nothing_sealed { (index_state result).sealed ≡ nothing }
        ensures room { (index_state result).then_fits ≡ new_index_fits (length memory.old) (length slots.old) }
    {
        slots.fill(EMPTY);
        let empty = slots.len();
        IndexedJournal {
            log: EntryLog::new(memory),
            slots,
            empty,
        }
    }

    // the slot that a search ends at, from the one that the hash names and round; none if all hold other entries
    fn slot_of(&self, entry: Entry<'_>) -> Option<usize>
        ensures answer { result ≡ probed (index_contents self.now) entry.entry.replica entry.entry.bytes.now }
        ensures inside { IfSome result (λ slot. slot < length self.now.slots.now) }
    {
        let count = self.slots.len();
        if count == 0 {
            return None;
        }
        let start = fnv1a_pair(entry.replica, entry.bytes) as usize % count;
        // `or_else` was tried, as `is_some_and` below
        match self.first_end(start..count, entry.replica, entry.bytes) {
            None => self.first_end(0..start, entry.replica, entry.bytes),
            found => found,
        }
    }

    // the first of these slots that ends a search; the pair comes as its two parts, since an `Entry` is passed through memory
    fn first_end(&self, mut slots: Range<usize>, replica: u8, bytes: &[u8]) -> Option<usize>
        ensures { result ≡ find (ends_at (index_contents self.now) replica bytes.now) (range_with_len slots.start (slots.end - slots.start)) }
    {
        slots.find(|&slot| self.ends_at(slot, Entry { replica, bytes }))
    }

    // an empty slot and one that holds the entry end a search
    fn ends_at(&self, slot: usize, entry: Entry<'_>) -> bool
        ensures { result ≡ ends_at (index_contents self.now) entry.entry.replica entry.entry.bytes.now slot }
    {
        let held = self.entry_in(slot);
        held.is_none() || held == Some(entry)
    }

    // whether a slot holds an entry; each that is not empty does
    fn is_taken(&self, slot: usize) -> bool
        ensures { result ≡ is_some (slice_index_or (index_contents self.now) slot None) }
    {
        self.slots.get(slot).is_some_and(|offset| *offset != EMPTY)
    }

    // the entry that a slot holds
    fn entry_in(&self, slot: usize) -> Option<Entry<'_>>
        ensures { option_map pair_of result ≡ slice_index_or (index_contents self.now) slot None }
    {
        let offset = *self.slots.get(slot)?;
        if offset == EMPTY {
            return None;
        }
        self.log.entry_at(offset as usize)
    }
}

impl<'a> Register for IndexedJournal<'a> {
    ghost use Rattle.seals.specs.Indexes.{index_state};

    ghost state = { index_state };

    fn is_sealed(&mut self, replica: u8, bytes: &[u8]) -> bool {
        let slot = self.slot_of(Entry { replica, bytes });
        // `is_some_and` was tried: what the call inside its closure answers is lost to the proof
        matches!(slot, Some(slot) if self.is_taken(slot))
    }

    fn has_room(&mut self, length: usize) -> bool {
        self.empty > 0 && is_holdable(self.log.offset_for(length))
    }

    fn seal(&mut self, replica: u8, bytes: &[u8]) -> Result<(), RegisterFault> {
        let entry = Entry { replica, bytes };
        let slot = self.slot_of(entry).ok_or(RegisterFault::Full)?;
        if self.is_taken(slot) {
            return Ok(());
        }
        if !is_holdable(self.log.offset_for(bytes.len())) {
            return Err(RegisterFault::Full);
        }
        let offset = self.log.append(entry).unwrap();
        self.slots[slot] = offset as u32;
        self.empty -= 1;
        Ok(())
    }
}

// whether there is an offset, and a slot can hold it
fn is_holdable(offset: Option<usize>) -> bool
    ensures { result ≡ holdable offset }
{
    offset.is_some_and(|offset| offset < EMPTY as usize)
}
