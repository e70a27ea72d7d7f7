// The slip that a delegated choice is reported by.
ghost use Rattle.std.specs.Prelude.{◌≡◌, true, false};
ghost use Rattle.run.specs.Run.{spent_by, told, done_so};

use wire::refusal::Refusal;

// Names the run that gave it. It is used up by a report or by waiving, and by nothing else.
pub struct Slip {
    run: u16,
    // A mark, and not only a type with no `Drop`: a slip let go is then refused by a proof, and not by the compiler.
    used: bool,
}

impl Slip {
    pub(crate) fn of(run: u16) -> Slip
        ensures number { result.run ≡ run }
        ensures unused { result.used ≡ false }
    {
        Slip { run, used: false }
    }

    pub(crate) fn number(&self) -> u16
        ensures { result ≡ self.now.run }
    {
        self.run
    }

    // An accepted call uses the slip up; a refused one hands it back.
    pub(crate) fn settle(self, reply: Result<(), Refusal>) -> Result<(), (Refusal, Slip)>
        ensures { result ≡ spent_by self (told done_so reply) }
    {
        match reply {
            Ok(()) => {
                self.spend();
                Ok(())
            }
            Err(refusal) => Err((refusal, self)),
        }
    }

    fn spend(mut self) {
        self.used = true;
    }
}

// No slip may be let go before it is used up. Only `spend` marks one so, and lets it go itself: nobody else has a slip that may go.
impl Drop for Slip {
    fn drop(self)
        requires { self.used ≡ true }
    {
        let Slip { run: _, used: _ } = self;
    }
}
