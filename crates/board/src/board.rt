// What every board can be asked.
ghost use Rattle.std.specs.Prelude.{◌≡◌};
ghost use Rattle.board.specs.Arena.{Arena, Lawful};

// A board has at most this many positions.
pub const MAX_POSITIONS: usize = 1024;

// A board: numbered positions, 0 the start, and the same numbered choices at each. Its arena is what it means.
pub trait Board {
    ghost arena: { Self → Arena };

    ghost lawful: { (b : Self) → Lawful (arena b) };

    fn positions(&self) -> usize
        ensures { result ≡ (arena self.now).positions };

    fn choices(&self) -> usize
        ensures { result ≡ (arena self.now).choices };

    // Whether the position is done; false out of range.
    fn is_done(&self, position: usize) -> bool
        ensures { result ≡ (arena self.now).done position };

    // The positions that a choice may lead to: none where it cannot be played, or out of range.
    fn outcomes(&self, position: usize, choice: usize) -> &[u16]
        ensures { result.now ≡ (arena self.now).outcomes position choice };
}
