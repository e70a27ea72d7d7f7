// The laws of ranks and tables, for every board. What these calls answer, 0, says nothing; callers have it so.
ghost use Rattle.board.specs.Example.{RollIsSolved};
ghost use Rattle.board.specs.Law.{WonIsForced, RoundsEnd, RankedIsForced, RankIsLeast, Hopeless, EveryPlaySucceeds, ForcesIsWithin, LawOfRounds};
ghost use Rattle.board.specs.TableLaw.{SolutionIsRanked, SolutionIsAccepted, AcceptedForces, AcceptedIsAbove};

// What it means that an orchestrator forces success.
pub fn forcing() -> u8
    ensures plays { EveryPlaySucceeds }
    ensures steps { ForcesIsWithin }
{
    0
}

// What a rank says about every orchestrator.
pub fn ranking() -> u8
    ensures won { WonIsForced }
    ensures ranked { RankedIsForced }
    ensures least { RankIsLeast }
    ensures hopeless { Hopeless }
{
    0
}

// Rounds outward from the done positions find the ranks, and end.
pub fn rounding() -> u8
    ensures ends { RoundsEnd }
    ensures finds { LawOfRounds }
{
    0
}

// The rows of the ranked positions are accepted, and accepted rows force success.
pub fn tabling() -> u8
    ensures ranked { SolutionIsRanked }
    ensures accepted { SolutionIsAccepted }
    ensures forces { AcceptedForces }
    ensures above { AcceptedIsAbove }
{
    0
}

// The paper roll, read from its chart file and solved.
pub fn example() -> u8
    ensures { RollIsSolved }
{
    0
}
