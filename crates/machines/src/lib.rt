// Deterministic machines: what replicas run, and two of them.
#![tactic(auto)]

#[cfg(test)]
mod example;
pub mod ledger;
pub mod ledger_work;
pub mod machine;
pub mod press_queue;
pub mod queue_work;
pub mod reason;
#[cfg(test)]
mod tests;
