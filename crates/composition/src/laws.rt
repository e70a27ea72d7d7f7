// The laws of composition, for every task and all services. What these calls answer, 0, says nothing; callers have it so.
ghost use Rattle.composition.specs.Law.{StatesListed, WonAfterStory, LawOfComposition, FoundIsComposed, FoundIsComposition};

// The states to which a service may go are those of its entry.
pub fn listing() -> u8
    ensures { StatesListed }
{
    0
}

// What can be forced after a story is what can be forced at the place where it leads.
pub fn winning() -> u8
    ensures { WonAfterStory }
{
    0
}

// What a composed board says about every orchestrator that reads choices and states.
pub fn composing() -> u8
    ensures { LawOfComposition }
{
    0
}

// The places that a search finds make a lawful board, of which the law of composition holds.
pub fn finding() -> u8
    ensures composed { FoundIsComposed }
    ensures composition { FoundIsComposition }
{
    0
}
