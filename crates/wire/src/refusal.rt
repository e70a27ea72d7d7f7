// Why a call said no, and where.
ghost use Rattle.std.specs.Prelude.{◌≡◌, Some, Decides, nat_eq};
ghost use Rattle.wire.specs.Refusals.{number_of, shown_text, NumbersDiffer, no_memory, refused};
ghost use Rattle.std.specs.Cmp.Rules.{comparing};
ghost use Rattle.std.specs.Ordering.{on, eq_of_both};
ghost use Rattle.std.proofs.Common.{rules};
ghost use Rattle.std.specs.Cmp as Keys;

use std::alloc::{AllocError, AllocFailed};
use std::fmt;

// The causes of refusals; the discriminant is the refusal number.
#[derive(Clone, Copy, Eq, Debug)]
pub enum Cause {
    UnknownByte = 1,
    FormulaComplete = 2,
    LetterOutOfRange = 3,
    TooManySigns = 4,
    TooDeep = 5,
    TooManyTemporal = 6,
    Incomplete = 7,
    ActionsOutOfRange = 8,
    ActionsDiffer = 9,
    BytesRunOut = 11,
    NotANumber = 12,
    OutsideField = 13,
    BytesLeftOver = 14,
    TooManyClasses = 21,
    TooManyPositions = 22,
    NoOrchestrator = 23,
    OutputTooShort = 24,
    NoFreeSlot = 25,
    RowsNotAscending = 31,
    RankAgainstDone = 32,
    ChoiceUnplayable = 33,
    NoStartRow = 34,
    RankNotFalling = 35,
    RunEnded = 41,
    RunWaiting = 42,
    SlipMismatch = 43,
    NotAnOutcome = 44,
    NoUsableRow = 45,
    TooManyReports = 48,
    StateNotInitial = 51,
    ServicesDiffer = 52,
    CannotPerform = 53,
    RollLength = 54,
    FileTooLong = 61,
    FileMissing = 62,
    OutOfMemory = 70,
}

// A refusal: its cause, and the place in the input that it speaks of (0 where there is none).
#[derive(Clone, Copy, Eq, Debug)]
pub struct Refusal {
    pub cause: Cause,
    pub place: usize,
}

impl Cause {
    // The refusal number; no two causes have one.
    #[tactic(auto, using(crate::proofs::Causes::numbers_differ))]
    pub fn number(self) -> u8
        ensures number { result ≡ number_of self }
        ensures apart { NumbersDiffer }
    {
        self as u8
    }

    // A refusal for this cause at `place`.
    pub fn at(self, place: usize) -> Refusal
        ensures { result ≡ refused self place }
    {
        Refusal { cause: self, place }
    }
}

// Two causes are the same exactly where their numbers are.
// Not derived: a derived `==` has no clause that says it is exact, and this one promises it.
impl PartialEq for Cause {
    ghost eq = { on number_of nat_eq };

    ghost laws = { Keys.partial_equiv_from_equiv (Prim.search (comparing, rules)) };

    fn eq(&self, other: &Cause) -> bool
        ensures by_number { result ≡ on number_of nat_eq self.now other.now }
        ensures exact { Decides result (self.now ≡ other.now) }
    {
        self.number() == other.number()
    }
}

// Two refusals are the same exactly where their causes and places are. Not derived, for the same reason.
impl PartialEq for Refusal {
    ghost eq = { eq_of_both (on (λ r. r.cause) (on number_of nat_eq)) (on (λ r. r.place) nat_eq) };

    ghost laws = { Keys.partial_equiv_from_equiv (Prim.search (comparing, rules)) };

    fn eq(&self, other: &Refusal) -> bool
        ensures by_parts { result ≡ eq_of_both (on (λ r. r.cause) (on number_of nat_eq)) (on (λ r. r.place) nat_eq) self.now other.now }
        ensures exact { Decides result (self.now ≡ other.now) }
    {
        self.cause == other.cause && self.place == other.place
    }
}

impl fmt::Display for Refusal {
    ghost output = { λ r. Some (shown_text r) };

    fn fmt<W: fmt::Write>(&self, f: &mut fmt::Formatter<W>) -> fmt::Result {
        write!(f, "refused {} at {}", self.cause.number(), self.place)
    }
}

// Two errors say that memory is wanting, and `?` asks for an impl for each.
impl From<AllocError> for Refusal {
    ghost from_gives = { λ _ r. r ≡ no_memory };

    fn from(_e: AllocError) -> Refusal {
        Cause::OutOfMemory.at(0)
    }
}

impl<T: Drop> From<AllocFailed<T>> for Refusal {
    ghost from_gives = { λ _ r. r ≡ no_memory };

    fn from(_e: AllocFailed<T>) -> Refusal {
        Cause::OutOfMemory.at(0)
    }
}
