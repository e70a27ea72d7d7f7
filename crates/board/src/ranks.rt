// The ranks that positions have, as far as they are known.
ghost use Rattle.std.specs.Prelude.{◌≡◌, ◌<◌, Some, None, replicate, slice_index_or, slice_set};
ghost use Rattle.std.specs.List.{list_all};
ghost use Rattle.board.specs.Rounds.{held};

use crate::board::MAX_POSITIONS;

// By position; None stands where none is known. An array of full size, so that ranks never want memory.
#[derive(Clone, Copy)]
pub struct Ranks {
    of: [Option<u16>; MAX_POSITIONS],
}

impl Ranks {
    // No position has a rank.
    pub fn none() -> Ranks
        ensures { result.of ≡ replicate 1024 None }
    {
        Ranks {
            of: [None; MAX_POSITIONS],
        }
    }

    // The rank of the position; None past the last one.
    pub fn get(&self, position: usize) -> Option<u16>
        ensures { result ≡ slice_index_or self.now.of position None }
    {
        self.of.get(position).copied().flatten()
    }

    // The same of a position that can have one: there is nothing to test.
    pub(crate) fn at(&self, position: usize) -> Option<u16>
        requires { position < 1024 }
        ensures { result ≡ slice_index_or self.now.of position None }
    {
        self.of[position]
    }

    // Gives the position the rank; past the last one there is nothing to give it to.
    pub fn set(&mut self, position: usize, rank: u16)
        ensures { self.new.of ≡ slice_set self.old.of position (Some rank) }
    {
        if position < MAX_POSITIONS {
            self.of[position] = Some(rank);
        }
    }

    // Whether the position has a rank below `limit`.
    pub fn is_below(&self, limit: u16, position: usize) -> bool
        ensures { result ≡ held self.now.of limit position }
    {
        self.get(position).is_some_and(|rank| rank < limit)
    }

    // Whether every one of the positions does.
    pub fn all_below(&self, limit: u16, positions: &[u16]) -> bool
        ensures { result ≡ list_all (held self.now.of limit) positions.now }
    {
        for position in positions {
            if !self.is_below(limit, usize::from(*position)) {
                return false;
            }
        }
        true
    }
}
