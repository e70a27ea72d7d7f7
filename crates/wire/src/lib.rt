// What every layer shares: refusals and the number format.
#![tactic(auto)]

pub mod field;
pub mod number;
pub mod reader;
pub mod refusal;
