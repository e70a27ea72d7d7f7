// Tables as bytes, and the audit that every table passes before a run begins on it.
#![tactic(auto)]

mod audit;
pub mod audited;
pub mod examples;
pub mod write;
