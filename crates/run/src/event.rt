// The events of a run, and what they answer.
use crate::look::Look;
use wire::refusal::Refusal;

// Slips stand here by their numbers, so that a slip of another run can be tried too.
#[derive(Clone, Copy, PartialEq, Eq, Debug)]
pub enum Event<'a> {
    Delegate,
    Report { slip: u16, position: u16 },
    Waive { slip: u16 },
    Abandon,
    Look,
    Rehearse { supposed: &'a [u16] },
}

#[derive(Clone, Copy, PartialEq, Eq, Debug)]
pub enum Answer {
    Given { choice: u8, slip: u16 },
    Accepted,
    Seen { look: Look },
    Rehearsed { look: Look, accepted: usize },
    Refused { refusal: Refusal },
    Stopped { refusal: Refusal, accepted: usize },
}

// The answers to a list of events, in order, and how the run stands in the end.
#[derive(Drop)]
pub struct Replay {
    pub answers: Vec<Answer>,
    pub look: Look,
}
