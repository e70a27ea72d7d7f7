// The paper roll as a community of one service.
ghost use Rattle.std.specs.Prelude.{◌≡◌};
ghost use Rattle.service.specs.Roll.{roll_tables, roll_present, roll_lawful, state_of, rolled};
ghost use Rattle.service.specs.Tables.{Performs};

use super::{HAS_PAPER, IS_OUT, LOADING, PRINTING, PaperRoll};
use crate::community::Community;
use wire::refusal::{Cause, Refusal};

const SERVICES: u8 = 1;

const ACTIONS: u8 = 2;

const STATES: u8 = 2;

// The sets of next states: loading leaves some paper, printing some or none.
const PAPER: u16 = 1 << HAS_PAPER;

const EITHER: u16 = PAPER | (1 << IS_OUT);

impl PaperRoll {
    // The present state.
    fn paper(&self) -> u8
        ensures { result ≡ state_of self.now.left }
    {
        if self.left == 0 { IS_OUT } else { HAS_PAPER }
    }
}

impl Community for PaperRoll {
    ghost tables = { λ _. roll_tables };

    ghost present = { λ p. roll_present p.left };

    ghost lawful = { λ p. roll_lawful p.left };

    fn services(&self) -> u8 {
        SERVICES
    }

    fn actions(&self) -> u8 {
        ACTIONS
    }

    fn states(&self, service: u8) -> u8 {
        if service == 0 { STATES } else { 0 }
    }

    fn entry(&self, service: u8, state: u8, action: u8) -> u16 {
        match (service, state, action) {
            (0, HAS_PAPER, PRINTING) => EITHER,
            (0, IS_OUT, LOADING) => PAPER,
            _ => 0,
        }
    }

    fn state(&self, service: u8) -> u8 {
        if service == 0 { self.paper() } else { 0 }
    }

    fn perform(&mut self, service: u8, action: u8) -> Result<u8, Refusal>
        ensures tables { roll_tables ≡ roll_tables }
        ensures performs { Performs roll_tables (roll_present self.old.left) service action result (roll_present self.new.left) }
        ensures answers { (result, self.new.left) ≡ rolled self.old.length self.old.left service action }
        ensures length { self.new.length ≡ self.old.length }
    {
        match (service, self.paper(), action) {
            (0, HAS_PAPER, PRINTING) => {
                self.left -= 1;
                Ok(self.paper())
            }
            (0, IS_OUT, LOADING) => {
                self.left = self.length;
                Ok(HAS_PAPER)
            }
            _ => Err(Cause::CannotPerform.at(0)),
        }
    }
}
