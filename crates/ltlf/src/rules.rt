// The rules of truth and of numbers on small examples.
ghost use Rattle.ltlf.specs.Rules.{RuleExamples};

// The examples hold; the answer itself says nothing.
pub fn rules_stand() -> u8
    ensures { RuleExamples }
{
    0
}
