// The state of a replica, all but its machine.
use wire::config::ClusterConfig;
use wire::entry::LogEntry;
use wire::kind::LAST_NUMBER;
use wire::request::Request;

// How many numbers a view has.
pub const NUMBERS: usize = LAST_NUMBER as usize;

// The most replicas that a cluster has.
pub const REPLICAS: usize = 5;

#[derive(Clone, Copy, PartialEq, Eq, Debug)]
pub enum Phase {
    // serves its view: prepares, commits and carries out
    Working,
    // outside its view's group: waits for doubt
    Aside,
    // came to a new view, and has not reported in it
    Turning,
    // in the new view's group, has reported, and gathers reports
    Gathering,
    // has named the reports it holds, and waits for the group to do so
    Closed,
}

// A report that is held: its first `len` entries. An array with a count is `Copy`, as a place that is filled and cleared; an `ArrayVec` is not.
#[derive(Clone, Copy)]
pub struct HeldReport {
    pub len: u8,
    pub entries: [LogEntry; NUMBERS],
}

// A plain struct of arrays, full from the start, is a rule of the project, and the definitions under the theorem name its very fields.
#[derive(Drop)]
pub struct State {
    pub config: ClusterConfig,
    // the replica's own number
    pub number: u8,
    pub view: u32,
    pub phase: Phase,
    // how many numbers are prepared, carried out, selected, and in the log
    pub prepared: u8,
    pub executed: u8,
    pub selected: u8,
    pub logged: u8,
    // the requests prepared, those selected at opening, and the log
    pub requests: [Request; NUMBERS],
    pub selection: [Request; NUMBERS],
    pub log: [LogEntry; NUMBERS],
    // for each number the followers whose commit was heard: bit h is replica h
    pub commits_heard: [u16; NUMBERS],
    // for each replica the report held and the closing noted
    pub reports: [Option<HeldReport>; REPLICAS],
    pub closings: [Option<u16>; REPLICAS],
}
