// What stands at a position of a board.
ghost use Rattle.std.specs.Prelude.{◌≡◌};
ghost use Rattle.board.specs.Spot.{seen, is_done, outcomes_in};

// The position is done, or there are the outcomes of each choice, none where it cannot be played.
// Not an `Option`: `None` would not say that the position is done.
#[derive(Drop)]
pub enum Spot {
    Done,
    Open(Vec<Vec<u16>>),
}

impl Spot {
    pub fn is_done(&self) -> bool
        ensures { result ≡ is_done (seen self.now) }
    {
        matches!(self, Spot::Done)
    }

    // The positions that the choice may lead to: none where the position is done, or past the last choice.
    pub fn outcomes(&self, choice: usize) -> &[u16]
        ensures { result.now ≡ outcomes_in (seen self.now) choice }
    {
        match self {
            Spot::Done => &[],
            Spot::Open(choices) => choices.get(choice).map_or(&[], |outcomes| outcomes),
        }
    }
}
