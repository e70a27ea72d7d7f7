// A community of services, each in one of its states.
ghost use Rattle.std.specs.Prelude.{◌≡◌, ℕ};
ghost use Rattle.service.specs.Tables.{Tables, Lawful, Performs};

use wire::refusal::Refusal;

// Out of range every question answers 0, which for an entry is the empty set: the interface has no preconditions.
pub trait Community {
    ghost tables: { Self → Tables };

    ghost present: { Self → ℕ → ℕ };

    ghost lawful: { (c : Self) → Lawful (tables c) (present c) };

    fn services(&self) -> u8
        ensures { result ≡ (tables self.now).services };

    fn actions(&self) -> u8
        ensures { result ≡ (tables self.now).actions };

    fn states(&self, service: u8) -> u8
        ensures { result ≡ (tables self.now).states service };

    // The set of next states; empty out of range.
    fn entry(&self, service: u8, state: u8, action: u8) -> u16
        ensures { result ≡ (tables self.now).entry service state action };

    // The present state of a service.
    fn state(&self, service: u8) -> u8
        ensures { result ≡ present self.now service };

    // The service does the action and answers the state that it took, which is any of its entry.
    fn perform(&mut self, service: u8, action: u8) -> Result<u8, Refusal>
        ensures tables { tables self.new ≡ tables self.old }
        ensures performs { Performs (tables self.old) (present self.old) service action result (present self.new) };
}
