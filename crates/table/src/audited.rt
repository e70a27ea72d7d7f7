// Tables that have passed the audit.
ghost use Rattle.std.specs.Prelude.{◌≡◌, ◌≤◌, ◌⊎◌, length, take, Ok, Err, MatchResult};
ghost use Rattle.board.specs.Table.{find};
ghost use Rattle.wire.specs.Refusals.{no_memory};
ghost use Rattle.table.specs.Audit.{audit_of, Rising};
ghost use Rattle.table.specs.Law.{AuditLaw};

use crate::audit::audited_rows;
use board::board::Board;
use board::table::Row;
use std::alloc::Global;
use wire::refusal::Refusal;

// Rows that have passed the audit, in ascending order of their positions; only `audit` makes one.
#[derive(Drop)]
pub struct AuditedTable {
    rows: Vec<Row>,
    ghost rising: { Rising rows.items },
}

impl AuditedTable {
    pub fn rows(&self) -> &[Row]
        ensures { result.now ≡ self.now.rows.items }
    {
        &self.rows
    }

    // The row of the position, searched among the front rows alone, so that the first rows are found at once.
    pub fn row(&self, position: u16) -> Option<Row>
        ensures { result ≡ find self.now.rows.items position }
    {
        let front = &self.rows[..self.front(position)];
        let at = front
            .binary_search_by_key(&position, |row| row.position)
            .ok()?;
        Some(front[at])
    }

    // A number of rows, from the front on, behind which the position has none: it doubles until a row has a higher position.
    fn front(&self, position: u16) -> usize
        ensures few { result ≤ length self.now.rows.items }
        ensures enough { find (take result self.now.rows.items) position ≡ find self.now.rows.items position }
    {
        let mut end = 1;
        while end < self.rows.len() && self.rows[end].position <= position {
            end *= 2;
        }
        end.min(self.rows.len())
    }
}

// The table that the bytes hold, if it is accepted on the board; else the first fault.
pub fn audit<B: Board>(heap: Global, bytes: &[u8], board: &B) -> Result<AuditedTable, Refusal>
    ensures audits { MatchResult result (λ t. audit_of (B.arena board.now) bytes.now ≡ Ok t.rows.items) (λ e. (audit_of (B.arena board.now) bytes.now ≡ Err e) ⊎ (e ≡ no_memory)) }
    ensures law { AuditLaw (B.arena board.now) bytes.now }
{
    let rows = audited_rows(heap, bytes, board)?;
    Ok(AuditedTable { rows })
}
