//! What the words of the command line ask, and why they ask nothing.

ghost use Rattle.std.specs.Prelude.{◌≡◌};
ghost use Rattle.scan_words.specs.declared.commands.WordsError.TheVariants.{Memory};

use std::alloc::{AllocError, AllocFailed};
use thiserror::Error;
use vx_split_rules::SplitBy;
use vx_types::Text;

/// What the words ask of the program.
#[derive(Drop)]
pub enum Command {
    /// The rows that a request asks of segment files, in their order unless they may come in any. `segments` and
    /// `request` are names of files, `workers` is at most 64, `idle` is how often a read may stand idle.
    Scan {
        segments: Text,
        request: Text,
        workers: Option<u64>,
        unordered: bool,
        idle: u64,
    },
    /// The rows that a request asks of a segment file, by the layout's readers.
    Read {
        segments: Text,
        request: Text,
        split: SplitBy,
        idle: u64,
    },
    /// The plan of a request.
    Tree {
        request: Text,
    },
    /// A scan of the demo file of so many rows, at most a million.
    Demo {
        number: u64,
    },
}

/// Why the words ask nothing.
#[derive(Clone, Copy, Debug, PartialEq, Eq, Error)]
pub enum WordsError {
    /// No command has these words.
    #[error("usage")]
    Usage,
    #[error("out of memory")]
    Memory,
}

impl From<AllocError> for WordsError {
    ghost from_gives = { λ _ e. e ≡ Memory };

    fn from(_e: AllocError) -> WordsError {
        WordsError::Memory
    }
}

impl<T: Drop> From<AllocFailed<T>> for WordsError {
    ghost from_gives = { λ _ e. e ≡ Memory };

    fn from(_e: AllocFailed<T>) -> WordsError {
        WordsError::Memory
    }
}
