// Why a line of a script is not played.
use bench_words::misread::Misread;
use std::alloc::AllocError;
use std::io;

/// Why a line is not played to its end.
#[derive(Debug, Drop)]
pub enum Failure {
    /// It is not understood.
    Misread(Misread),
    /// What it says cannot be printed, or there is no memory.
    Io(io::Error),
}

impl From<Misread> for Failure {
    fn from(why: Misread) -> Failure {
        Failure::Misread(why)
    }
}

impl From<io::Error> for Failure {
    fn from(error: io::Error) -> Failure {
        Failure::Io(error)
    }
}

impl From<AllocError> for Failure {
    fn from(error: AllocError) -> Failure {
        Failure::Io(io::Error::from(error))
    }
}
