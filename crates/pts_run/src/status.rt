//! The answers of the top call.

/// How a call ended, in the order of the program's exit statuses, which are 0 to 6.
#[derive(Clone, Copy, Debug, PartialEq, Eq)]
pub enum Status {
    /// The command was carried out and all its lines were written.
    Done,
    /// The words are no command. Nothing was read or written.
    Usage,
    /// The script was refused, and its one line of refusal was written.
    Refused,
    /// The script was run, and a statement terminated the run: it threw. The lines up to there were written.
    Terminated,
    /// The source failed. Nothing was written.
    ReadFault,
    /// The sink failed.
    WriteFault,
    /// There was no memory.
    NoMemory,
}
