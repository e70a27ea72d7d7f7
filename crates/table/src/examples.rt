// Worked audits; what the call answers, 0, says nothing.
ghost use Rattle.table.specs.Examples.{AuditExamples};

pub fn audits_stand() -> u8
    ensures { AuditExamples }
{
    0
}
