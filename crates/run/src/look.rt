// What a run answers when it is looked at.
ghost use Rattle.std.specs.Prelude.{◌≡◌, Some};
ghost use Rattle.run.specs.Run.{phase_of, phase_word, seen};

use crate::record::{Record, State};
use std::fmt;

#[derive(Clone, Copy, PartialEq, Eq, Debug)]
pub enum Phase {
    Idle,
    Waiting,
    Done,
    Abandoned,
}

#[derive(Clone, Copy, PartialEq, Eq, Debug)]
pub struct Look {
    pub number: u16,
    pub position: u16,
    pub count: u16,
    pub phase: Phase,
}

// The phase of a state; the choice that is waited on is not told.
impl From<State> for Phase {
    ghost from_gives = { λ s p. p ≡ phase_of s };

    fn from(state: State) -> Phase {
        match state {
            State::Idle => Phase::Idle,
            State::Waiting(_) => Phase::Waiting,
            State::Done => Phase::Done,
            State::Abandoned => Phase::Abandoned,
        }
    }
}

impl fmt::Display for Phase {
    ghost output = { λ p. Some (phase_word p) };

    fn fmt<W: fmt::Write>(&self, f: &mut fmt::Formatter<W>) -> fmt::Result {
        f.write_str(match self {
            Phase::Idle => "idle",
            Phase::Waiting => "waiting",
            Phase::Done => "done",
            Phase::Abandoned => "abandoned",
        })
    }
}

impl From<Record> for Look {
    ghost from_gives = { λ r l. l ≡ seen r };

    fn from(rec: Record) -> Look {
        Look {
            number: rec.number,
            position: rec.position,
            count: rec.count,
            phase: Phase::from(rec.state),
        }
    }
}
