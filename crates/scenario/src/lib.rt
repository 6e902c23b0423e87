// The language of scenarios: the lines of a text, their words, and what a word stands for.
#![tactic(auto)]

pub mod lines;
#[cfg(test)]
mod tests;
pub mod words;
