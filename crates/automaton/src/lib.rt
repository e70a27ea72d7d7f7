// The classes of a task's traces, and the table of steps between them.
#![tactic(auto)]

pub mod automaton;
mod class_set;
mod numbering;
mod profile;
#[cfg(test)]
mod tests;
