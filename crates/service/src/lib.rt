// Services: the services file, communities of services, and the paper roll.
#![tactic(auto)]

pub mod community;
pub mod file;
pub mod limits;
pub mod roll;
pub mod service;
pub mod sets;
#[cfg(test)]
mod tests;
