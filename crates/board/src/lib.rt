// Boards, their ranks, and the table that solves one.
#![tactic(auto)]

pub mod board;
pub mod chart;
pub mod laws;
pub mod ranks;
pub mod solve;
pub mod spot;
pub mod table;
#[cfg(test)]
mod tests;
