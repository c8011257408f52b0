//! What the words of a command line ask, of which the first is the mode.

ghost use Rattle.std.specs.Prelude.{◌≡◌, map, string_bytes, IfOk};
ghost use Rattle.scan_words.specs.Answers.{Answers};
ghost use Rattle.scan_words.specs.Bounds.{IsWithinBounds};
ghost use Rattle.scan_words.specs.Words.{mode_command, command_of, demo_asked, has_lone_dash, read_asked, scan_asked, tree_asked};

use crate::arguments::{demo_of, read_of, scan_of, tree_of};
use crate::commands::{Command, WordsError};
use crate::grammar::{demo_matches, read_matches, scan_matches, tree_matches};
use std::alloc::Global;

/// What the words ask: the first is the mode, `scan`, `read`, `tree` or `demo`. Refusals, in the order in which they are
/// tried: `Usage`, exactly where no command has these words; `Memory`, which may come in place of any answer.
pub fn words_of(alloc: Global, words: &[String]) -> Result<Command, WordsError>
    ensures command { Answers (command_of (map string_bytes words.now)) result }
    ensures bounds { IfOk result IsWithinBounds }
{
    let Some((mode, rest)) = words.split_first() else {
        return Err(WordsError::Usage);
    };
    if has_lone_dash(rest) {
        return Err(WordsError::Usage);
    }
    command_in(alloc, mode.as_str(), rest)
}

/// What the words after this mode ask.
#[tactic(auto, unfolding(crate::specs::Words::mode_command))]
fn command_in(alloc: Global, mode: &str, words: &[String]) -> Result<Command, WordsError>
    ensures command { Answers (mode_command mode.now (map string_bytes words.now)) result }
    ensures bounds { IfOk result IsWithinBounds }
{
    match mode {
        "scan" => scan_asked(alloc, words),
        "read" => read_asked(alloc, words),
        "tree" => tree_asked(alloc, words),
        "demo" => demo_asked(alloc, words),
        _ => Err(WordsError::Usage),
    }
}

/// What the words after `scan` ask.
fn scan_asked(alloc: Global, words: &[String]) -> Result<Command, WordsError>
    ensures command { Answers (scan_asked (map string_bytes words.now)) result }
    ensures bounds { IfOk result IsWithinBounds }
{
    let matches = scan_matches(alloc, words)?;
    let command = scan_of(alloc, &matches);
    drop(matches);
    command
}

/// What the words after `read` ask.
fn read_asked(alloc: Global, words: &[String]) -> Result<Command, WordsError>
    ensures command { Answers (read_asked (map string_bytes words.now)) result }
    ensures bounds { IfOk result IsWithinBounds }
{
    let matches = read_matches(alloc, words)?;
    let command = read_of(alloc, &matches);
    drop(matches);
    command
}

/// What the words after `tree` ask.
fn tree_asked(alloc: Global, words: &[String]) -> Result<Command, WordsError>
    ensures command { Answers (tree_asked (map string_bytes words.now)) result }
    ensures bounds { IfOk result IsWithinBounds }
{
    let matches = tree_matches(alloc, words)?;
    let command = tree_of(alloc, &matches);
    drop(matches);
    command
}

/// What the words after `demo` ask.
fn demo_asked(alloc: Global, words: &[String]) -> Result<Command, WordsError>
    ensures command { Answers (demo_asked (map string_bytes words.now)) result }
    ensures bounds { IfOk result IsWithinBounds }
{
    let matches = demo_matches(alloc, words)?;
    let command = demo_of(&matches);
    drop(matches);
    command
}

/// Whether a word that is `-` stands before any `--`.
fn has_lone_dash(words: &[String]) -> bool
    ensures { result ≡ has_lone_dash (map string_bytes words.now) }
{
    for word in words {
        if word.as_str() == "--" {
            return false;
        }
        if word.as_str() == "-" {
            return true;
        }
    }
    false
}
