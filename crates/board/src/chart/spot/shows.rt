// What a chart keeps at a position, made and asked.
ghost use Rattle.std.specs.Prelude.{◌≡◌, ◌+◌, ◌<◌, [], ◌∷◌, ◌++◌};
ghost use Rattle.board.specs.ChartSpots.{listed, kept, shown};
ghost use Rattle.board.specs.Spot.{is_done, outcomes_in};

use super::{ChartSpot, Choices, MOST_CHOICES, MOST_OUTCOMES, Outcomes};

impl Outcomes {
    pub(crate) fn none() -> Outcomes
        ensures items { listed result ≡ [] }
        ensures count { result.count ≡ 0 }
    {
        Outcomes {
            count: 0,
            slots: [0; MOST_OUTCOMES],
        }
    }

    pub(crate) fn push(&mut self, position: u16)
        requires { self.old.count < 8 }
        ensures items { listed self.new ≡ listed self.old ++ (position ∷ []) }
        ensures count { self.new.count ≡ self.old.count + 1 }
    {
        self.slots[usize::from(self.count)] = position;
        self.count += 1;
    }

    fn as_slice(&self) -> &[u16]
        ensures { result.now ≡ listed self.now }
    {
        &self.slots[..usize::from(self.count)]
    }
}

impl Choices {
    pub(crate) fn none() -> Choices
        ensures items { kept result ≡ [] }
        ensures count { result.count ≡ 0 }
    {
        Choices {
            count: 0,
            slots: [Outcomes::none(); MOST_CHOICES],
        }
    }

    pub(crate) fn push(&mut self, outcomes: Outcomes)
        requires { self.old.count < 8 }
        ensures items { kept self.new ≡ kept self.old ++ (listed outcomes ∷ []) }
        ensures count { self.new.count ≡ self.old.count + 1 }
    {
        self.slots[usize::from(self.count)] = outcomes;
        self.count += 1;
    }

    fn outcomes(&self, choice: usize) -> &[u16]
        ensures { result.now ≡ outcomes_in (shown (ChartSpot.Open self.now)) choice }
    {
        if choice < usize::from(self.count) {
            self.slots[choice].as_slice()
        } else {
            &[]
        }
    }
}

impl ChartSpot {
    pub(crate) fn is_done(&self) -> bool
        ensures { result ≡ is_done (shown self.now) }
    {
        matches!(self, ChartSpot::Done)
    }

    // The positions that the choice may lead to: none where the position is done, or past the last choice.
    pub(crate) fn outcomes(&self, choice: usize) -> &[u16]
        ensures { result.now ≡ outcomes_in (shown self.now) choice }
    {
        match self {
            ChartSpot::Done => &[],
            ChartSpot::Open(choices) => choices.outcomes(choice),
        }
    }
}
