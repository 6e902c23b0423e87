// A benchmark of look-ups in both registers, as they grow. `--run` runs it; without that it does nothing.
#![tactic(auto)]

use anyhow::anyhow;
use seals::index::IndexedJournal;
use seals::journal::Journal;
use seals::register::Register;
use std::env;
use std::time::Instant;

// The bytes of an entry: its head and a message as long as a vote.
const ENTRY: usize = 30;

// How many messages are looked up again and again.
const FEW: u32 = 50;

// The nth message, of 27 bytes.
fn message(n: u32) -> [u8; 27] {
    let mut bytes = [7u8; 27];
    bytes[15..19].copy_from_slice(&n.to_be_bytes());
    bytes
}

fn fill<R: Register>(register: &mut R, seals: u32) {
    for n in 0..seals {
        let _ = register.seal((n % 5) as u8, &message(n));
    }
}

// How many of so many look-ups, of that many messages spread over the sealed ones, found theirs.
// A struct of the register and the counts would be taken apart at each use: `measure` gives two values of `among`.
fn look_up<R: Register>(register: &mut R, seals: u32, among: u32, times: u32) -> u32 {
    let Some(apart) = seals.checked_div(among) else {
        return 0;
    };
    let mut found: u32 = 0;
    let mut n: u32 = 0;
    // a plain `for`: `successors`, `take` and a filter that changes the register are no plainer
    for _ in 0..times {
        n = n.wrapping_mul(1_664_525).wrapping_add(1_013_904_223);
        let which = ((n >> 8) % among).wrapping_mul(apart);
        if register.is_sealed((which % 5) as u8, &message(which)) {
            found = found.wrapping_add(1);
        }
    }
    found
}

// Nanoseconds of a look-up in a filled register.
fn timed<R: Register>(
    rt: &HostRuntime,
    register: &mut R,
    seals: u32,
    among: u32,
    times: u32,
) -> anyhow::Result<u128> {
    let start = Instant::now(rt)?;
    let found = look_up(register, seals, among, times);
    let spent = start.elapsed(rt)?;
    if found != times || times == 0 {
        return Err(anyhow!("a sealed message was not found"));
    }
    Ok(spent.as_nanos() / u128::from(times))
}

// Look-ups of a few messages, whose places stay in the processor's cache, and of all.
fn measure<R: Register>(
    rt: &HostRuntime,
    name: &str,
    register: &mut R,
    seals: u32,
    times: u32,
) -> anyhow::Result<()> {
    fill(register, seals);
    let few = timed(rt, register, seals, FEW, times)?;
    let all = timed(rt, register, seals, seals, times)?;
    println!(rt; "{name} {seals:>6} seals: {few:>6} of {FEW} messages, {all:>6} of all")?;
    Ok(())
}

// The two registers are lent different memory; the rest of the measurement is one.
fn measure_index(rt: &HostRuntime, seals: u32) -> anyhow::Result<()> {
    let mut memory = vec![in rt.alloc(); 0u8; ENTRY * seals as usize]?;
    let mut slots = vec![in rt.alloc(); 0u32; 2 * seals as usize]?;
    let mut register = IndexedJournal::new(memory.as_mut_slice(), slots.as_mut_slice());
    measure(rt, "index  ", &mut register, seals, 1_000_000)
}

fn measure_journal(rt: &HostRuntime, seals: u32) -> anyhow::Result<()> {
    let mut memory = vec![in rt.alloc(); 0u8; ENTRY * seals as usize]?;
    let mut register = Journal::new(memory.as_mut_slice());
    measure(rt, "journal", &mut register, seals, 1_000)
}

fn run(rt: &HostRuntime) -> anyhow::Result<()> {
    println!(rt; "nanoseconds of a look-up; the slots are half full at the most")?;
    for seals in [100u32, 1_000, 10_000, 100_000] {
        measure_index(rt, seals)?;
    }
    for seals in [100u32, 1_000, 10_000] {
        measure_journal(rt, seals)?;
    }
    Ok(())
}

fn main(rt: HostRuntime) -> anyhow::Result<()> {
    if env::args(&rt)?.any(|word| word.as_str() == "--run") {
        run(&rt)?;
    }
    Ok(())
}
