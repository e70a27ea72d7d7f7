// Tables: what to play where, and within how many steps it succeeds.
ghost use Rattle.std.specs.Prelude.{◌≡◌, []};

use std::alloc::Global;

// A position, the number of steps within which it is won, and the choice to play there.
// The choice of a done position is 0 and not None: rows are shown and compared so.
#[derive(Clone, Copy, PartialEq, Eq, Debug)]
pub struct Row {
    pub position: u16,
    pub rank: u16,
    pub choice: u8,
}

// Rows in ascending order of their positions.
#[derive(Drop)]
pub struct Table {
    pub(crate) rows: Vec<Row>,
}

impl Table {
    // A table without rows.
    pub fn empty(heap: Global) -> Table
        ensures { result.rows.items ≡ [] }
    {
        Table {
            rows: Vec::new(heap),
        }
    }

    pub fn rows(&self) -> &[Row]
        ensures { result.now ≡ self.now.rows.items }
    {
        &self.rows
    }
}
