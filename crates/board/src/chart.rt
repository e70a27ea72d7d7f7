// A board as a table.
ghost use Rattle.std.specs.Prelude.{◌≡◌, ◌≤◌, vec_len};
ghost use Rattle.std.specs.List.{All};
ghost use Rattle.board.specs.Layout.{Limits};
ghost use Rattle.board.specs.ChartSpots.{all_shown};
ghost use Rattle.board.specs.Spot.{Fits};

use crate::chart::spot::ChartSpot;

pub mod reader;
pub mod shows;
mod spot;

// The numbers of positions and of choices of a chart.
#[derive(Clone, Copy)]
pub(crate) struct Size {
    pub(crate) positions: u16,
    pub(crate) choices: u16,
    ghost limits: { Limits positions choices },
}

// What stands past the spots is not done and has no outcomes: the zero chart has a position and no spot, since a spot would want memory.
#[derive(Drop)]
pub struct Chart {
    size: Size,
    spots: Vec<ChartSpot>,
    ghost sized: { vec_len spots ≤ size.positions },
    ghost sound: { All (Fits size.positions size.choices) (all_shown spots) },
}

impl Size {
    // Of the zero chart.
    fn one() -> Size
        ensures { (result.positions ≡ 1) × (result.choices ≡ 1) }
    {
        Size {
            positions: 1,
            choices: 1,
        }
    }
}
