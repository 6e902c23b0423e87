// Entries in given memory, one after another.
// An index uses `offset_for`, `entry_at` and `append` by what they promise of `place` and `entry_at`.
ghost use Rattle.std.specs.Prelude.{◌≤◌, length};

use crate::entry::{Entry, HEAD, LONGEST, split_entry};

// memory, and how much of it holds entries; the caller lends it, since a register has no heap for a Vec
#[derive(Drop)]
pub(crate) struct EntryLog<'a> {
    pub(crate) memory: &'a mut [u8],
    pub(crate) used: usize,
    ghost within: { used ≤ length memory.now },
}

impl<'a> EntryLog<'a> {
    ghost use Rattle.std.specs.Prelude.{◌≡◌, ℕ, ◌+◌, [], ◌++◌, take, IfNone, IfSome, OnSome, Some};
    ghost use Rattle.std.specs.Option.{option_map};
    ghost use Rattle.seals.specs.Registers.{Pair, after};
    ghost use Rattle.seals.specs.Layout.{packed, pair_of};
    ghost use Rattle.seals.specs.Logs.{entry_at, new_place, place, used_bytes};

    pub(crate) fn new(memory: &'a mut [u8]) -> EntryLog<'a>
        ensures nothing_used { used_bytes result ≡ [] }
        ensures room { place result ≡ new_place (length memory.old) }
    {
        EntryLog { memory, used: 0 }
    }

    // the offset that an entry of this length gets, if it fits
    #[tactic(auto, unfolding(crate::specs::Logs::place))]
    pub(crate) fn offset_for(&self, len: usize) -> Option<usize>
        ensures answer { result ≡ place self.now [] len }
        ensures behind { IfSome result (λ offset. offset ≡ self.now.used) }
        ensures short { IfSome result (λ _. len ≤ 65535) }
        ensures inside { IfSome result (λ offset. offset + 3 + len ≤ length self.now.memory.now) }
    {
        let left = self.memory.len() - self.used;
        (len <= LONGEST && HEAD + len <= left).then_some(self.used)
    }

    // the entry that is read at an offset
    #[tactic(auto, unfolding(crate::specs::Logs::entry_at))]
    pub(crate) fn entry_at(&self, offset: usize) -> Option<Entry<'_>>
        ensures { option_map pair_of result ≡ entry_at self.now offset }
    {
        let (entry, _) = split_entry(self.in_use().get(offset..)?)?;
        Some(entry)
    }

    // writes an entry, if it fits, and answers its offset
    pub(crate) fn append(&mut self, entry: Entry<'_>) -> Option<usize>
        ensures answer { result ≡ place self.old [] (length entry.entry.bytes.now) }
        ensures written { IfSome result (λ offset. entry_at self.new offset ≡ Some (pair_of entry.entry)) }
        ensures kept { (offset : ℕ) (p : Pair) → entry_at self.old offset ≡ Some p → entry_at self.new offset ≡ Some p }
        ensures room { OnSome result (place self.new ≡ after (place self.old) (pair_of entry.entry)) }
        ensures packs { OnSome result (used_bytes self.new ≡ used_bytes self.old ++ packed (pair_of entry.entry)) }
        ensures short { OnSome result (length entry.entry.bytes.now ≤ 65535) }
        ensures full { IfNone result (self.new ≡ self.old) }
    {
        let offset = self.offset_for(entry.bytes.len())?;
        let body = offset + HEAD;
        let end = body + entry.bytes.len();
        let [high, low] = (entry.bytes.len() as u16).to_be_bytes();
        self.write(offset, &[entry.replica, high, low]);
        self.write(body, entry.bytes);
        self.used = end;
        Some(offset)
    }

    // the bytes that hold entries
    pub(crate) fn in_use(&self) -> &[u8]
        ensures { result.now ≡ used_bytes self.now }
    {
        &self.memory[..self.used]
    }

    // as the writer of messages does, on whose crate this one does not stand
    fn write(&mut self, at: usize, bytes: &[u8])
        requires { at + length bytes.now ≤ length self.old.memory.now }
        ensures front { take (at + length bytes.now) self.new.memory.now ≡ take at self.old.memory.now ++ bytes.now }
        ensures size { length self.new.memory.now ≡ length self.old.memory.now }
        ensures used { self.new.used ≡ self.old.used }
    {
        self.memory[at..at + bytes.len()].copy_from_slice(bytes);
    }
}
