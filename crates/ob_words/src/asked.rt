//! What the words of the command line ask for.

use thiserror::Error;

/// The settings of the program.
#[derive(Clone, Copy, PartialEq, Eq, Drop)]
pub struct Settings {
    /// The turns of a command, 1 to 1,000,000,000.
    pub turns: u32,
    /// The words of the heap, 1 to 4,194,304.
    pub heap: u32,
}

/// Why words say no settings.
#[derive(Clone, Copy, Debug, PartialEq, Eq, Error, Drop)]
pub enum WordsFault {
    /// The words are none that the program takes, or a number is out of its range.
    #[error("usage: oberon [--turns N] [--heap N]")]
    Refused,
    #[error("out of memory")]
    Memory,
}
