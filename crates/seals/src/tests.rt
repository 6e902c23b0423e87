// Registers by example.
use crate::fnv::{fnv1a, fnv1a_pair};
use crate::index::IndexedJournal;
use crate::journal::Journal;
use crate::register::Register;
use refusals::Refusal;
use std::process::Abort;

const VECTORS: [(&[u8], u32); 14] = [
    (b"", 0x811c9dc5),
    (b"a", 0xe40c292c),
    (b"b", 0xe70c2de5),
    (b"c", 0xe60c2c52),
    (b"d", 0xe10c2473),
    (b"e", 0xe00c22e0),
    (b"f", 0xe30c2799),
    (b"fo", 0x6222e842),
    (b"foo", 0xa9f37ed7),
    (b"foob", 0x3f5076ef),
    (b"fooba", 0x39aaa18a),
    (b"foobar", 0xbf9cf968),
    (b"\0", 0x050c5d1f),
    (b"a\0", 0x2b24d044),
];

#[test]
fn published_hashes(rt: HostRuntime) {
    for (bytes, hash) in VECTORS.iter() {
        assert_eq!(rt; fnv1a(bytes), *hash);
    }
    assert_eq!(rt; fnv1a_pair(b'f', b"oobar"), 0xbf9cf968);
}

// sealing is refused with 5
fn refuses<R: Register>(rt: &impl Abort, register: &mut R, replica: u8, bytes: &[u8]) {
    let refusal = register.seal(replica, bytes).err().map(Refusal::from);
    assert_eq!(rt; refusal.map(|refusal| refusal.number), Some(5));
}

// a register with room for 57 bytes seals three messages of 27 under one replica, and the first once more
fn seal_three<R: Register>(rt: &impl Abort, register: &mut R) {
    assert!(rt; register.has_room(57));
    assert!(rt; !register.has_room(58));
    assert!(rt; register.seal(0, &[1; 27]).is_ok());
    assert!(rt; register.seal(0, &[2; 27]).is_ok());
    refuses(rt, register, 0, &[3; 27]);
    assert!(rt; register.seal(0, &[1; 27]).is_ok());
    assert!(rt; register.is_sealed(0, &[2; 27]));
    assert!(rt; !register.is_sealed(0, &[3; 27]));
    assert!(rt; !register.is_sealed(1, &[1; 27]));
}

#[test]
fn journal_of_60_bytes(rt: HostRuntime) {
    let mut memory = [7; 60];
    let mut journal = Journal::new(&mut memory);
    seal_three(&rt, &mut journal);
}

#[test]
fn index_of_60_bytes(rt: HostRuntime) {
    let mut memory = [7; 60];
    let mut slots = [0; 5];
    let mut index = IndexedJournal::new(&mut memory, &mut slots);
    seal_three(&rt, &mut index);
}

#[test]
fn index_without_slots(rt: HostRuntime) {
    let mut memory = [7; 60];
    let mut slots = [0; 0];
    let mut index = IndexedJournal::new(&mut memory, &mut slots);
    assert!(rt; !index.has_room(0));
    assert!(rt; !index.is_sealed(0, &[]));
    refuses(&rt, &mut index, 0, &[]);
}

#[test]
fn index_of_two_slots(rt: HostRuntime) {
    let mut memory = [7; 60];
    let mut slots = [0; 2];
    let mut index = IndexedJournal::new(&mut memory, &mut slots);
    assert!(rt; index.seal(0, &[]).is_ok());
    assert!(rt; index.seal(1, &[]).is_ok());
    assert!(rt; !index.has_room(0));
    refuses(&rt, &mut index, 2, &[]);
    assert!(rt; !index.is_sealed(2, &[]));
    assert!(rt; index.seal(1, &[]).is_ok());
    assert!(rt; index.is_sealed(0, &[]));
}
