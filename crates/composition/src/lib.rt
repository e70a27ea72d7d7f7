// Composing a task with services: the board of their places, and the table that solves it.
#![tactic(auto)]

pub mod compose;
pub mod composed;
pub mod laws;
pub mod place;
mod product;
#[cfg(test)]
mod tests;
