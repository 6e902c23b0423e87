// The protocol as definitions, and agreement proved over them.
#![tactic(auto)]

pub mod agreement;
pub mod examples;
pub mod fault;
pub mod state;
