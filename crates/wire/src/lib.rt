// The wire format: every message as bytes, read and written.
#![tactic(auto)]

pub mod body;
mod buffer;
pub mod config;
pub mod draft;
pub mod entry;
pub mod fault;
pub mod fields;
mod head;
pub mod kind;
pub mod mask;
pub mod message;
mod numbers;
mod parts;
mod ranges;
pub mod read;
mod reader;
pub mod request;
