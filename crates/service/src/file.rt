// A services file: the services of a community, and how many of them and of their actions there are.
ghost use Rattle.std.specs.Prelude.{◌≤◌};

use crate::limits::MAX_SERVICES;
use crate::service::Service;

mod questions;
mod reader;

pub use self::reader::read_services;

#[derive(Clone, Copy)]
pub struct CommunityFile {
    count: u8,
    actions: u8,
    // the first `count` of them (an array of full size, so that reading cannot run out of memory)
    services: [Service; MAX_SERVICES],
    ghost limits: { (1 ≤ count) × (count ≤ 8) × (1 ≤ actions) × (actions ≤ 16) },
}
