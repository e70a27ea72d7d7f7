// Runs of a table on a board: delegate a choice, report where it led.
#![tactic(auto)]

pub mod event;
pub mod look;
pub mod record;
pub mod replay;
pub mod run;
pub mod slip;
