// Registers of seals: who sealed which bytes, kept in given memory.
#![tactic(auto)]

mod entry;
pub mod fault;
pub mod fnv;
pub mod index;
pub mod journal;
mod log;
pub mod register;
#[cfg(test)]
mod tests;
