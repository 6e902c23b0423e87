// A replica: the calls by which it takes part in keeping one log.
#![tactic(auto)]

mod closing;
mod executing;
mod phases;
pub mod questions;
pub mod replica;
mod reporting;
mod sending;
mod set_up;
mod turning;
mod voting;
