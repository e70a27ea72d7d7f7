// Tasks: formulas of linear temporal logic on finite traces, their text and their truth.
#![tactic(auto)]

pub mod node;
pub mod reader;
pub mod rules;
pub mod task;
pub mod truth;
