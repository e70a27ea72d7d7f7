// Writing a table.
ghost use Rattle.std.specs.Prelude.{◌≡◌, ◌≤◌, length};
ghost use Rattle.wire.specs.Number.{groups};
ghost use Rattle.table.specs.Bytes.{row_bytes};
ghost use Rattle.table.specs.Law.{SolutionIsAudited};
ghost use Rattle.table.specs.Writing.{written, holding, Adds, PutsTable};

use board::table::{Row, Table};
use wire::number::write_number;
use wire::refusal::{Cause, Refusal};

// Bytes that are written from the front on; the next number goes to `at`.
#[derive(Drop)]
struct Writer<'a> {
    output: &'a mut [u8],
    at: usize,
}

impl Writer<'_> {
    fn number(&mut self, n: u16) -> Result<(), Refusal>
        ensures puts { Adds result self.old self.new (groups n) }
        ensures named { self.new.output.ghost_name ≡ self.old.output.ghost_name }
    {
        self.at = write_number(self.output, self.at, n)?;
        Ok(())
    }

    // Position and rank, and the choice where the rank is not 0.
    #[tactic(auto, using(crate::proofs::Putting::row_fails, crate::proofs::Putting::rank_fails, crate::proofs::Putting::row_blank, crate::proofs::Putting::row_played))]
    fn row(&mut self, row: Row) -> Result<(), Refusal>
        ensures puts { Adds result self.old self.new (row_bytes row) }
        ensures named { self.new.output.ghost_name ≡ self.old.output.ghost_name }
    {
        self.number(row.position)?;
        self.number(row.rank)?;
        if row.rank != 0 {
            self.number(u16::from(row.choice))?;
        }
        Ok(())
    }
}

// Writes the number of rows and the rows, from the front on, and says where they end.
fn write_table(output: &mut [u8], rows: &[Row]) -> Result<usize, Refusal>
    ensures { PutsTable result output.old output.new rows.now }
{
    let Ok(count) = u16::try_from(rows.len()) else {
        return Err(Cause::OutputTooShort.at(0));
    };
    let mut writer = Writer { output, at: 0 };
    writer.number(count)?;
    for row in rows {
        writer.row(*row)?;
    }
    Ok(writer.at)
}

// Writes the table and says how many bytes it has; every byte of the output behind them is zero.
// A table that does not fit, or has more rows than a number can hold, is refused, and the output is all zero.
// The caller's own value is filled and not one answered, since the promise tells it after a refusal too.
#[tactic(auto, using(crate::proofs::Laws::solution_is_audited, crate::proofs::Putting::table_leaves))]
pub fn write(table: &Table, output: &mut [u8]) -> Result<usize, Refusal>
    ensures says { result ≡ written table.now.rows.items (length output.old) }
    ensures leaves { output.new ≡ holding table.now.rows.items (length output.old) }
    ensures audited { SolutionIsAudited }
{
    output.fill(0);
    let end = write_table(output, table.rows());
    if end.is_err() {
        output.fill(0);
    }
    end
}
