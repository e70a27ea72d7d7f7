// A paper roll: a service that prints slips until the paper is out, and then is loaded.
ghost use Rattle.std.specs.Prelude.{◌≡◌, ◌≤◌, MatchResult};
ghost use Rattle.service.specs.Roll.{NewRoll, NoRoll};

use wire::refusal::{Cause, Refusal};

// The longest roll, in slips.
pub const MAX_LENGTH: u16 = 1000;

// The actions. A community counts its actions and its states from 0, so both are numbers.
pub const PRINTING: u8 = 0;

pub const LOADING: u8 = 1;

// The states.
pub const HAS_PAPER: u8 = 0;

pub const IS_OUT: u8 = 1;

mod performing;

#[derive(Clone, Copy)]
pub struct PaperRoll {
    length: u16,
    left: u16,
    ghost sound: { (1 ≤ length) × (length ≤ 1000) × (left ≤ length) },
}

impl PaperRoll {
    // A full roll of 1 to `MAX_LENGTH` slips.
    pub fn new(length: u16) -> Result<PaperRoll, Refusal>
        ensures { MatchResult result (λ p. NewRoll length p.length p.left) (λ e. NoRoll length e) }
    {
        match length {
            1..=MAX_LENGTH => Ok(PaperRoll {
                length,
                left: length,
            }),
            _ => Err(Cause::RollLength.at(0)),
        }
    }

    // How many slips are left.
    pub fn left(&self) -> u16
        ensures { result ≡ self.now.left }
    {
        self.left
    }
}
