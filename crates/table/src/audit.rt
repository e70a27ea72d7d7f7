// The rows of a table file, read and checked against a board.
ghost use Rattle.std.specs.Prelude.{◌≡◌, ◌+◌, ◌⊎◌, not, Ok, Err, IfOk, MatchResult};
ghost use Rattle.std.specs.List.{find};
ghost use Rattle.wire.specs.Refusals.{no_memory};
ghost use Rattle.board.specs.Rounds.{held};
ghost use Rattle.table.specs.Audit.{Same, count_at, position_at, rank_at, choice_at, row_at, rows_of, leads, audit_of, Reads};

use board::board::Board;
use board::ranks::Ranks;
use board::table::Row;
use std::alloc::{AllocError, Global};
use wire::reader::Reader;
use wire::refusal::{Cause, Refusal};

// A row, and the place where it begins.
#[derive(Clone, Copy)]
struct Placed {
    place: usize,
    row: Row,
}

// Reads rows of a board; the position of the next one is not below `floor`.
// Each call says that board and bytes stay: that relates before and after, so no invariant can.
#[derive(Drop)]
struct RowReader<'a, B> {
    board: &'a B,
    numbers: Reader<'a>,
    floor: usize,
}

impl<'a, B: Board> RowReader<'a, B> {
    fn new(board: &'a B, bytes: &'a [u8]) -> RowReader<'a, B>
        ensures board { result.board.now ≡ board.now }
        ensures bytes { result.numbers.bytes.now ≡ bytes.now }
        ensures at { result.numbers.at ≡ 0 }
        ensures floor { result.floor ≡ 0 }
    {
        RowReader {
            board,
            numbers: Reader::new(bytes),
            floor: 0,
        }
    }

    // The number of rows, not above the number of positions.
    fn count(&mut self) -> Result<u16, Refusal>
        requires { self.old.numbers.at ≡ 0 }
        ensures reads { Reads result self.new.numbers.at (count_at (B.arena self.old.board.now) self.old.numbers.bytes.now) }
        ensures floor { self.new.floor ≡ self.old.floor }
        ensures same { Same self.old self.new }
    {
        let count = self.numbers.number()?;
        if usize::from(count) > self.board.positions() {
            return Err(Cause::OutsideField.at(0));
        }
        Ok(count)
    }

    // The position of a row, on the board and not below the floor.
    fn position(&mut self) -> Result<u16, Refusal>
        ensures reads { Reads result self.new.numbers.at (position_at (B.arena self.old.board.now) self.old.numbers.bytes.now self.old.floor self.old.numbers.at) }
        ensures same { Same self.old self.new }
    {
        let at = self.numbers.at();
        let position = self.numbers.number()?;
        if usize::from(position) >= self.board.positions() {
            return Err(Cause::OutsideField.at(at));
        }
        if usize::from(position) < self.floor {
            return Err(Cause::RowsNotAscending.at(at));
        }
        Ok(position)
    }

    // The rank of a row, 0 exactly where the position is done.
    fn rank(&mut self, position: u16) -> Result<u16, Refusal>
        ensures reads { Reads result self.new.numbers.at (rank_at (B.arena self.old.board.now) self.old.numbers.bytes.now position self.old.numbers.at) }
        ensures same { Same self.old self.new }
    {
        let at = self.numbers.at();
        let rank = self.numbers.number()?;
        if self.board.is_done(usize::from(position)) != (rank == 0) {
            return Err(Cause::RankAgainstDone.at(at));
        }
        Ok(rank)
    }

    // The choice of a row, playable there.
    fn choice(&mut self, position: u16) -> Result<u8, Refusal>
        ensures reads { Reads result self.new.numbers.at (choice_at (B.arena self.old.board.now) self.old.numbers.bytes.now position self.old.numbers.at) }
        ensures same { Same self.old self.new }
    {
        let at = self.numbers.at();
        let choice = self.numbers.number()?;
        if self
            .board
            .outcomes(usize::from(position), usize::from(choice))
            .is_empty()
        {
            return Err(Cause::ChoiceUnplayable.at(at));
        }
        // A board has at most 128 choices, so this one fits.
        Ok(choice as u8)
    }

    // The next row.
    #[tactic(auto, unfolding(crate::specs::Audit::row_at))]
    fn row(&mut self) -> Result<Row, Refusal>
        ensures reads { Reads result self.new.numbers.at (row_at (B.arena self.old.board.now) self.old.numbers.bytes.now self.old.floor self.old.numbers.at) }
        ensures floor { IfOk result (λ r. self.new.floor ≡ r.position + 1) }
        ensures same { Same self.old self.new }
    {
        let position = self.position()?;
        let rank = self.rank(position)?;
        let choice = if rank == 0 { 0 } else { self.choice(position)? };
        self.floor = usize::from(position) + 1;
        Ok(Row {
            position,
            rank,
            choice,
        })
    }
}

// Whether every outcome of the row's choice has a lower rank.
fn leads_down<B: Board>(board: &B, ranks: &Ranks, row: Row) -> bool
    ensures { result ≡ leads (B.arena board.now) (held ranks.now.of) row }
{
    if row.rank == 0 {
        return true;
    }
    let outcomes = board.outcomes(usize::from(row.position), usize::from(row.choice));
    ranks.all_below(row.rank, outcomes)
}

// The first row that does not lead down.
fn first_loose<B: Board>(board: &B, ranks: &Ranks, rows: &[Placed]) -> Option<Placed>
    ensures { result ≡ find (λ x. not (leads (B.arena board.now) (held ranks.now.of) x.row)) rows.now }
{
    rows.iter()
        .copied()
        .find(|each| !leads_down(board, ranks, each.row))
}

// The rows without their places.
fn rows_alone(heap: Global, rows: &[Placed]) -> Result<Vec<Row>, AllocError>
    ensures { IfOk result (λ v. v.items ≡ rows_of rows.now) }
{
    rows.iter().map(|each| each.row).collect(heap)
}

// The rows that the bytes hold, if they pass the audit.
#[tactic(auto, using(crate::proofs::Turns::uncounted, crate::proofs::Turns::reading_lost))]
pub(crate) fn audited_rows<B: Board>(
    heap: Global,
    bytes: &[u8],
    board: &B,
) -> Result<Vec<Row>, Refusal>
    ensures { MatchResult result (λ v. audit_of (B.arena board.now) bytes.now ≡ Ok v.items) (λ e. (audit_of (B.arena board.now) bytes.now ≡ Err e) ⊎ (e ≡ no_memory)) }
{
    let mut reader = RowReader::new(board, bytes);
    let count = reader.count()?;
    let mut rows = Vec::new(heap);
    let mut ranks = Ranks::none();
    // No chain: each row is read where the one before ends, and may be refused.
    for _ in 0..count {
        let place = reader.numbers.at();
        let row = reader.row()?;
        ranks.set(usize::from(row.position), row.rank);
        rows.push(Placed { place, row })?;
    }
    reader.numbers.finish()?;
    if ranks.get(0).is_none() {
        return Err(Cause::NoStartRow.at(bytes.len()));
    }
    if let Some(loose) = first_loose(board, &ranks, &rows) {
        return Err(Cause::RankNotFalling.at(loose.place));
    }
    Ok(rows_alone(heap, &rows)?)
}
