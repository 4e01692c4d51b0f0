//! The numbers that the program ends with.

ghost use Rattle.std.specs.Prelude.{◌≡◌};
ghost use Rattle.ptsrun.specs.Exit as spec;

use pts_run::Status;
use std::io::ErrorKind;

const NO_MEMORY: u8 = 6;

const NOT_TEXT: u8 = 7;

/// The number of an answer of the top call.
pub fn number_of(status: Status) -> u8
    ensures { result ≡ spec.number_of status }
{
    match status {
        Status::Done => 0,
        Status::Usage => 1,
        Status::Refused => 2,
        Status::Terminated => 3,
        Status::ReadFault => 4,
        Status::WriteFault => 5,
        Status::NoMemory => NO_MEMORY,
    }
}

/// The number where the words cannot be had: for want of memory, or since they are not text.
pub fn number_without_words(kind: ErrorKind) -> u8
    ensures { result ≡ spec.number_without_words kind }
{
    match kind {
        ErrorKind::OutOfMemory => NO_MEMORY,
        _ => NOT_TEXT,
    }
}
