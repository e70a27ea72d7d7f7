// One sign or letter of a task.

// A node of a formula: an action's number, or the numbers of the operands' nodes (by number and not boxed: rows of truth go by it).
#[derive(Clone, Copy, PartialEq, Eq, Debug)]
pub enum Node {
    Action(u8),
    Not(u8),
    Next(u8),
    WeakNext(u8),
    Eventually(u8),
    Always(u8),
    And(u8, u8),
    Or(u8, u8),
    Implies(u8, u8),
    Until(u8, u8),
    Release(u8, u8),
}
