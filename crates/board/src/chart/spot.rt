// What a chart keeps at a position.
ghost use Rattle.std.specs.Prelude.{◌≤◌};

mod shows;

// The most choices of a chart, and the most outcomes of one.
pub(crate) const MOST_CHOICES: usize = 8;

pub(crate) const MOST_OUTCOMES: usize = 8;

// The outcomes of a choice: the first `count` of the slots; nothing is said of the others.
// Slots of full size, here and below: a chart then asks for memory where it has more positions than it had before, and nowhere else.
#[derive(Clone, Copy)]
pub(crate) struct Outcomes {
    pub(crate) count: u8,
    pub(crate) slots: [u16; MOST_OUTCOMES],
    ghost few: { count ≤ 8 },
}

// The choices of a position: the first `count` of the slots.
#[derive(Clone, Copy)]
pub(crate) struct Choices {
    pub(crate) count: u8,
    pub(crate) slots: [Outcomes; MOST_CHOICES],
    ghost few: { count ≤ 8 },
}

// The position is done, or there are the outcomes of each choice.
#[derive(Clone, Copy)]
pub(crate) enum ChartSpot {
    Done,
    Open(Choices),
}
