// A run of an audited table on a board.
ghost use Rattle.std.specs.Prelude.{◌≡◌, false, List, IfOk};
ghost use Rattle.board.specs.Arena.{Arena};
ghost use Rattle.run.specs.Run.{birth, step, told, done_so, handed, rehearsed, spent};

use crate::event::{Answer, Event};
use crate::look::Look;
use crate::record::{Ground, Record};
use crate::slip::Slip;
use board::board::Board;
use board::table::Row;
use table::audited::AuditedTable;
use wire::refusal::Refusal;

#[derive(Drop)]
pub struct Run {
    pub(crate) rec: Record,
}

// Puts the record back when it ends.
struct Restore<'a> {
    rec: &'a mut Record,
    saved: Record,
}

impl Drop for Restore<'_> {
    fn drop(self)
        ensures { self.exit.0.now ≡ self.entry.saved }
    {
        *self.rec = self.saved;
        let Restore { rec: _, saved: _ } = self;
    }
}

// The public calls take the table and the board one by one, as their callers have them; `Ground` is for the inside.
impl Run {
    // A run at the start of the board. Only an audited table is run.
    pub fn start<B: Board>(_table: &AuditedTable, board: &B, number: u16) -> Run
        ensures { result.rec ≡ birth (B.arena board.now) number }
    {
        Run {
            rec: Record::born(board, number),
        }
    }

    // The choice to perform next, with the slip to report it by.
    pub fn delegate<B: Board>(
        &mut self,
        table: &AuditedTable,
        board: &B,
    ) -> Result<(u8, Slip), Refusal>
        ensures steps { (handed result, self.new.rec) ≡ step (B.arena board.now) table.now.rows.items self.old.rec Event.Delegate }
        ensures unused { IfOk result (λ p. p.1.used ≡ false) }
    {
        let number = self.rec.number;
        let choice = self.rec.delegate(&Ground { table, board })?;
        Ok((choice, Slip::of(number)))
    }

    // The position that the delegated choice led to.
    pub fn report<B: Board>(
        &mut self,
        slip: Slip,
        board: &B,
        position: u16,
    ) -> Result<(), (Refusal, Slip)>
        ensures { (rows : List Row) → (result, self.new.rec) ≡ spent slip (step (B.arena board.now) rows self.old.rec (Event.Report slip.run position)) }
    {
        let reply = self.rec.report(board, slip.number(), position);
        slip.settle(reply)
    }

    // Gives the delegated choice up, which abandons the run.
    pub fn waive(&mut self, slip: Slip) -> Result<(), (Refusal, Slip)>
        ensures { (a : Arena) (rows : List Row) → (result, self.new.rec) ≡ spent slip (step a rows self.old.rec (Event.Waive slip.run)) }
    {
        let reply = self.rec.waive(slip.number());
        slip.settle(reply)
    }

    // Ends an idle run.
    pub fn abandon(&mut self) -> Result<(), Refusal>
        ensures { (a : Arena) (rows : List Row) → (told done_so result, self.new.rec) ≡ step a rows self.old.rec Event.Abandon }
    {
        self.rec.abandon()
    }

    // How the run stands.
    pub fn look(&self) -> Look
        ensures { (a : Arena) (rows : List Row) → (Answer.Seen result, self.now.rec) ≡ step a rows self.now.rec Event.Look }
    {
        Look::from(self.rec)
    }

    // How the run would stand after the supposed positions, and how many of them were accepted.
    pub fn rehearse<B: Board>(
        &mut self,
        table: &AuditedTable,
        board: &B,
        supposed: &[u16],
    ) -> Result<(Look, usize), (Refusal, usize)>
        ensures { (rehearsed result, self.new.rec) ≡ step (B.arena board.now) table.now.rows.items self.old.rec (Event.Rehearse supposed.entry) }
    {
        let saved = self.rec;
        let guard = Restore {
            rec: &mut self.rec,
            saved,
        };
        let ground = Ground { table, board };
        for (accepted, position) in supposed.iter().enumerate() {
            if let Err(refusal) = guard.rec.suppose(&ground, *position) {
                return Err((refusal, accepted));
            }
        }
        Ok((Look::from(*guard.rec), supposed.len()))
    }
}

// Called by nothing: it shows what a caller owes a slip, and the check that a lost one is refused turns it.
// A whole turn: delegates, and reports the position. Where the report is refused, the slip is waived, so that none is let go.
fn turn<B: Board>(
    run: &mut Run,
    table: &AuditedTable,
    board: &B,
    position: u16,
) -> Result<u8, Refusal> {
    let (choice, slip) = run.delegate(table, board)?;
    match run.report(slip, board, position) {
        Ok(()) => Ok(choice),
        Err((refusal, slip)) => {
            if let Err((mismatch, _back)) = run.waive(slip) {
                return Err(mismatch);
            }
            Err(refusal)
        }
    }
}
