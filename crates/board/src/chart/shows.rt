// A chart as a board.
ghost use Rattle.std.specs.Prelude.{◌≡◌};
ghost use Rattle.board.specs.Charts.{sheet, chart_arena, chart_lawful};
ghost use Rattle.board.specs.Reading.{zero_sheet};

use crate::board::Board;
use crate::chart::{Chart, Size};
use std::alloc::Global;

impl Chart {
    // One position that is not done, and one choice that cannot be played.
    pub fn zero(heap: Global) -> Chart
        ensures { sheet result ≡ zero_sheet }
    {
        Chart {
            size: Size::one(),
            spots: Vec::new(heap),
        }
    }
}

impl Board for Chart {
    ghost arena = { chart_arena };

    ghost lawful = { chart_lawful };

    fn positions(&self) -> usize {
        usize::from(self.size.positions)
    }

    fn choices(&self) -> usize {
        usize::from(self.size.choices)
    }

    fn is_done(&self, position: usize) -> bool {
        self.spots.get(position).is_some_and(|spot| spot.is_done())
    }

    fn outcomes(&self, position: usize, choice: usize) -> &[u16] {
        self.spots
            .get(position)
            .map_or(&[], |spot| spot.outcomes(choice))
    }
}
