// The two machines at work.
use crate::ledger::Ledger;
use crate::ledger_work::LedgerWork;
use crate::machine::Machine;
use crate::press_queue::PressQueue;
use crate::queue_work::QueueWork;

fn buy(piece: u8, copies: u32) -> u64 {
    LedgerWork::Buy { piece, copies }.into()
}

fn print(piece: u8, copies: u32) -> u64 {
    LedgerWork::Print { piece, copies }.into()
}

fn ask(piece: u8) -> u64 {
    LedgerWork::Ask { piece }.into()
}

fn put(job: u32) -> u64 {
    QueueWork::Put { job }.into()
}

fn take() -> u64 {
    QueueWork::Take.into()
}

#[test]
fn ledger_counts_copies(rt: HostRuntime) {
    let mut ledger = Ledger::new();
    assert_eq!(rt; buy(5, 40), 0x0105000000000028);
    assert_eq!(rt; ledger.apply(buy(5, 40)), 40);
    assert_eq!(rt; ledger.apply(print(5, 45)), 1099511627779);
    assert_eq!(rt; ledger.apply(print(5, 12)), 28);
    assert_eq!(rt; ledger.apply(ask(5)), 28);
    assert_eq!(rt; ledger.apply(ask(4)), 0);
}

#[test]
fn ledger_refuses(rt: HostRuntime) {
    let mut ledger = Ledger::new();
    assert_eq!(rt; ledger.apply(buy(31, 1_000_000)), 1_000_000);
    assert_eq!(rt; ledger.apply(buy(31, 1)), 1099511627778);
    assert_eq!(rt; ledger.apply(buy(32, 1)), 1099511627777);
    assert_eq!(rt; ledger.apply(put(7)), 1099511627777);
    ledger.reset();
    assert_eq!(rt; ledger.apply(ask(31)), 0);
}

#[test]
fn press_queue_keeps_the_order(rt: HostRuntime) {
    let mut queue = PressQueue::new();
    assert_eq!(rt; queue.apply(take()), 1099511627781);
    assert_eq!(rt; queue.apply(put(70)), 1);
    assert_eq!(rt; queue.apply(put(71)), 2);
    assert_eq!(rt; queue.apply(take()), 70);
    assert_eq!(rt; queue.apply(buy(5, 40)), 1099511627777);
    assert_eq!(rt; queue.apply(take()), 71);
}

#[test]
fn press_queue_is_full_at_sixteen(rt: HostRuntime) {
    let mut queue = PressQueue::new();
    for waiting in 1..17 {
        assert_eq!(rt; queue.apply(put(7)), waiting);
    }
    assert_eq!(rt; queue.apply(put(7)), 1099511627780);
    queue.reset();
    assert_eq!(rt; queue.apply(take()), 1099511627781);
}
