// Why a line ends early.
use std::alloc::AllocError;
use std::io;
use wire::refusal::Refusal;

// A refusal is a line's answer; anything else ends the program.
pub(crate) enum Failure {
    Refused(Refusal),
    Broken(anyhow::Error),
}

impl From<Refusal> for Failure {
    fn from(refusal: Refusal) -> Failure {
        Failure::Refused(refusal)
    }
}

impl From<AllocError> for Failure {
    fn from(error: AllocError) -> Failure {
        Failure::Broken(anyhow::Error::from(error))
    }
}

impl From<io::Error> for Failure {
    fn from(error: io::Error) -> Failure {
        Failure::Broken(anyhow::Error::from(error))
    }
}
