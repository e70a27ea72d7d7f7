// The ranks of a board, by rounds outward from its done positions, and the table that they give.
ghost use Rattle.std.specs.Prelude.{◌≡◌, ◌<◌, ℕ, false, [], None, MatchResult, slice_index_or, slice_set};
ghost use Rattle.std.specs.List.{find, range_with_len};
ghost use Rattle.wire.specs.Refusals.{no_memory};
ghost use Rattle.board.specs.Rounds.{wins_by, raised, Found, Settled};
ghost use Rattle.board.specs.Solving.{Solved, SolveLaw};
ghost use Rattle.board.specs.Table.{row_if, solution};

use crate::board::Board;
use crate::ranks::Ranks;
use crate::table::{Row, Table};
use wire::refusal::{Cause, Refusal};

// A board, and the ranks that are found on it so far. What moves the ranks says that the board stays: that relates before and after,
// so no invariant can.
#[derive(Drop)]
struct Solver<'b, B: Board> {
    board: &'b B,
    ranks: Ranks,
}

// The same once every position that has a rank has it here.
#[derive(Drop)]
struct Ranked<'b, B: Board> {
    solver: Solver<'b, B>,
    ghost settled: { Settled (B.arena solver.board.now) solver.ranks.of },
}

impl<'b, B: Board> Solver<'b, B> {
    // Whether the choice is playable, and all its outcomes have ranks below `limit`.
    fn wins(&self, limit: u16, position: usize, choice: usize) -> bool
        ensures { result ≡ wins_by (B.arena self.now.board.now) self.now.ranks.of limit position choice }
    {
        let outcomes = self.board.outcomes(position, choice);
        !outcomes.is_empty() && self.ranks.all_below(limit, outcomes)
    }

    // The lowest choice that wins there.
    fn lowest_choice(&self, limit: u16, position: usize) -> Option<usize>
        ensures { result ≡ find (wins_by (B.arena self.now.board.now) self.now.ranks.of limit position) (range_with_len 0 (B.arena self.now.board.now).choices) }
    {
        (0..self.board.choices()).find(|choice| self.wins(limit, position, *choice))
    }

    // Gives the position the rank if it has none and is winnable by lower ones; says whether it did.
    fn raise(&mut self, rank: u16, position: usize) -> bool
        requires { position < 1024 }
        ensures board { self.new.board.now ≡ self.old.board.now }
        ensures after { self.new.ranks.of ≡ slice_set self.old.ranks.of position (raised (B.arena self.old.board.now) self.old.ranks.of rank position) }
        ensures still { result ≡ false → self.new.ranks.of ≡ self.old.ranks.of }
    {
        if self.ranks.at(position).is_some() || self.lowest_choice(rank, position).is_none() {
            return false;
        }
        self.ranks.set(position, rank);
        true
    }

    // Gives the rank to every position that has none and is winnable by lower ones; says whether there was one.
    fn round(&mut self, rank: u16) -> bool
        ensures board { self.new.board.now ≡ self.old.board.now }
        ensures each { (p : ℕ) → slice_index_or self.new.ranks.of p None ≡ raised (B.arena self.old.board.now) self.old.ranks.of rank p }
        ensures still { result ≡ false → self.new.ranks.of ≡ self.old.ranks.of }
    {
        // Not `any`, which would stop at the first.
        let mut changed = false;
        for position in 0..self.board.positions() {
            if self.raise(rank, position) {
                changed = true;
            }
        }
        changed
    }

    // No steps: the done positions have rank 0.
    fn begun(board: &'b B) -> Solver<'b, B>
        ensures board { result.board.now ≡ board.now }
        ensures found { Found (B.arena board.now) 0 result.ranks.of }
    {
        let mut ranks = Ranks::none();
        for position in 0..board.positions() {
            if board.is_done(position) {
                ranks.set(position, 0);
            }
        }
        Solver { board, ranks }
    }
}

impl<'b, B: Board> Ranked<'b, B> {
    // The rank of every position that has one.
    fn settled(board: &'b B) -> Ranked<'b, B>
        ensures { result.solver.board.now ≡ board.now }
    {
        // No chain: each round goes on from the ranks that the one before has left.
        let mut solver = Solver::begun(board);
        for steps in 0..board.positions() {
            if !solver.round(steps as u16 + 1) {
                break;
            }
        }
        Ranked { solver }
    }

    // The row of a position that has a rank. A done one has choice 0, and the board is not asked about it; where the rank is above 0
    // some choice wins.
    fn row_at(&self, position: usize) -> Option<Row>
        ensures { result ≡ row_if (B.arena self.now.solver.board.now) position }
    {
        let rank = self.solver.ranks.get(position)?;
        let choice = if rank == 0 {
            0
        } else {
            self.solver.lowest_choice(rank, position).unwrap_or(0)
        };
        Some(Row {
            position: position as u16,
            rank,
            choice: choice as u8,
        })
    }

    // The rows of all positions that have a rank, into an empty list.
    fn fill(&self, rows: &mut Vec<Row>) -> Result<(), Refusal>
        requires { rows.old.items ≡ [] }
        ensures { MatchResult result (λ _. rows.new.items ≡ solution (B.arena self.now.solver.board.now)) (λ e. e ≡ no_memory) }
    {
        let positions = 0..self.solver.board.positions();
        rows.extend(positions.filter_map(|position| self.row_at(position)))?;
        Ok(())
    }
}

// Fills the table with the row of every position that has a rank; refuses where the start has none.
// The caller's own value is filled and not one answered, since the promise tells it after a refusal too.
pub fn solve<B: Board>(board: &B, out: &mut Table) -> Result<(), Refusal>
    ensures solves { Solved (B.arena board.now) result out.new.rows.items }
    ensures law { SolveLaw (B.arena board.now) result out.new.rows.items }
{
    out.rows.clear();
    let ranked = Ranked::settled(board);
    if ranked.solver.ranks.get(0).is_none() {
        return Err(Cause::NoOrchestrator.at(0));
    }
    let filled = ranked.fill(&mut out.rows);
    if filled.is_err() {
        out.rows.clear();
    }
    filled
}
