// The record of a run, and what each event does to it.
ghost use Rattle.std.specs.Prelude.{◌≡◌, Ok, Err, MatchResult};
ghost use Rattle.board.specs.Table.{find};
ghost use Rattle.run.specs.Run.{settled, birth, by_row, delegated, kept, reporting, waiving, abandoning, supposing};

use board::board::Board;
use table::audited::AuditedTable;
use wire::refusal::{Cause, Refusal};

// Waiting holds the choice that was delegated.
#[derive(Clone, Copy, PartialEq, Eq, Debug)]
pub enum State {
    Idle,
    Waiting(u8),
    Done,
    Abandoned,
}

#[derive(Clone, Copy, PartialEq, Eq, Debug)]
pub struct Record {
    pub number: u16,
    pub position: u16,
    pub count: u16,
    pub state: State,
}

// The most reports that a run accepts.
const MAX_REPORTS: u16 = 1023;

// How a run stands that has reached the position.
fn settle<B: Board>(board: &B, position: u16) -> State
    ensures { result ≡ settled ((B.arena board.now).done position) }
{
    if board.is_done(usize::from(position)) {
        State::Done
    } else {
        State::Idle
    }
}

// What a run stands on: a table, and the board that it is for.
#[derive(Drop)]
pub(crate) struct Ground<'a, B: Board> {
    pub(crate) table: &'a AuditedTable,
    pub(crate) board: &'a B,
}

impl<B: Board> Ground<'_, B> {
    // The choice of the position's row; refuses where there is no row, or one that cannot be played.
    fn usable(&self, position: u16) -> Result<u8, Refusal>
        ensures { result ≡ by_row (B.arena self.now.board.now) position (find self.now.table.now.rows.items position) }
    {
        self.table
            .row(position)
            .filter(|row| row.rank != 0)
            .map(|row| row.choice)
            .filter(|choice| {
                !self
                    .board
                    .outcomes(usize::from(position), usize::from(*choice))
                    .is_empty()
            })
            .ok_or(Cause::NoUsableRow.at(0))
    }
}

impl Record {
    pub(crate) fn born<B: Board>(board: &B, number: u16) -> Record
        ensures { result ≡ birth (B.arena board.now) number }
    {
        Record {
            number,
            position: 0,
            count: 0,
            state: settle(board, 0),
        }
    }

    // The choice to perform next, on which the run then waits.
    pub(crate) fn delegate<B: Board>(&mut self, ground: &Ground<B>) -> Result<u8, Refusal>
        ensures { (result, self.new) ≡ delegated (B.arena ground.now.board.now) ground.now.table.now.rows.items self.old }
    {
        match self.state {
            State::Idle => {
                let choice = ground.usable(self.position)?;
                self.state = State::Waiting(choice);
                Ok(choice)
            }
            State::Waiting(_) => Err(Cause::RunWaiting.at(0)),
            State::Done | State::Abandoned => Err(Cause::RunEnded.at(0)),
        }
    }

    // The position that the delegated choice led to, by a slip with the number `slip`.
    pub(crate) fn report<B: Board>(
        &mut self,
        board: &B,
        slip: u16,
        position: u16,
    ) -> Result<(), Refusal>
        ensures { (result, self.new) ≡ kept self.old (reporting (B.arena board.now) self.old slip position self.old.state) }
    {
        let State::Waiting(choice) = self.state else {
            return Err(Cause::SlipMismatch.at(0));
        };
        if slip != self.number {
            return Err(Cause::SlipMismatch.at(0));
        }
        let outcomes = board.outcomes(usize::from(self.position), usize::from(choice));
        if !outcomes.contains(&position) {
            return Err(Cause::NotAnOutcome.at(0));
        }
        if self.count >= MAX_REPORTS {
            return Err(Cause::TooManyReports.at(0));
        }
        self.position = position;
        self.count += 1;
        self.state = settle(board, position);
        Ok(())
    }

    // Gives the delegated choice up, and the run with it.
    pub(crate) fn waive(&mut self, slip: u16) -> Result<(), Refusal>
        ensures { (result, self.new) ≡ kept self.old (waiving self.old slip self.old.state) }
    {
        match self.state {
            State::Waiting(_) if slip == self.number => {
                self.state = State::Abandoned;
                Ok(())
            }
            _ => Err(Cause::SlipMismatch.at(0)),
        }
    }

    // Ends an idle run.
    pub(crate) fn abandon(&mut self) -> Result<(), Refusal>
        ensures { (result, self.new) ≡ kept self.old (abandoning self.old self.old.state) }
    {
        match self.state {
            State::Idle => {
                self.state = State::Abandoned;
                Ok(())
            }
            State::Waiting(_) => Err(Cause::RunWaiting.at(0)),
            State::Done | State::Abandoned => Err(Cause::RunEnded.at(0)),
        }
    }

    // Delegates unless waiting, then reports the position as if with the run's slip.
    // A refused report leaves the record waiting, so this is for a record that is put back afterwards.
    pub(crate) fn suppose<B: Board>(
        &mut self,
        ground: &Ground<B>,
        position: u16,
    ) -> Result<(), Refusal>
        ensures { MatchResult result
            (λ _. supposing (B.arena ground.now.board.now) ground.now.table.now.rows.items self.old position ≡ Ok self.new)
            (λ e. supposing (B.arena ground.now.board.now) ground.now.table.now.rows.items self.old position ≡ Err e) }
    {
        if !matches!(self.state, State::Waiting(_)) {
            self.delegate(ground)?;
        }
        self.report(ground.board, self.number, position)
    }
}
