//! What the texts that `clap` holds of a command ask of the program.

ghost use Rattle.std.specs.Prelude.{◌≡◌, ◌<◌, IfOk, IfSome, option_map};
ghost use Rattle.clap.specs.Words.{first_of};
ghost use Rattle.vx_split_rules.specs.Rules.{IsZeroSize};
ghost use Rattle.scan_words.specs.Answers.{Answers};
ghost use Rattle.scan_words.specs.Bounds.{IsWithinBounds, LiesBetween};
ghost use Rattle.scan_words.specs.Grammar.{rows_in};
ghost use Rattle.scan_words.specs.Limits.{most_workers};
ghost use Rattle.scan_words.specs.Words.{demo_command, idle_limit, has_flag, read_command, scan_command, split_choice, tree_command, worker_count};

use crate::commands::{Command, WordsError};
use crate::numbers::number_between;
use crate::split_rules::split_rule;
use clap::ArgMatches;
use std::alloc::Global;
use vx_split_rules::SplitBy;
use vx_types::Text;

/// The most workers that a scan has.
const MAX_WORKERS: u64 = 64;
/// The idle limit where none is said.
const DEFAULT_IDLE: u64 = 1_000_000;
/// The most rows that a demo file has.
const MAX_DEMO_ROWS: u64 = 1_000_000;

/// What the matches of `scan` ask.
#[tactic(auto, unfolding(crate::specs::Words::scan_command))]
pub fn scan_of(alloc: Global, matches: &ArgMatches<'_>) -> Result<Command, WordsError>
    ensures command { Answers (scan_command (rows_in matches.now)) result }
    ensures bounds { IfOk result IsWithinBounds }
{
    let segments = positional_in(alloc, matches, "segments")?;
    let request = positional_in(alloc, matches, "request")?;
    let workers = workers_in(matches)?;
    let idle = idle_in(matches)?;
    let unordered = is_set(matches, "unordered");
    Ok(Command::Scan {
        segments,
        request,
        workers,
        unordered,
        idle,
    })
}

/// What the matches of `read` ask.
#[tactic(auto, unfolding(crate::specs::Words::read_command))]
pub fn read_of(alloc: Global, matches: &ArgMatches<'_>) -> Result<Command, WordsError>
    ensures command { Answers (read_command (rows_in matches.now)) result }
    ensures bounds { IfOk result IsWithinBounds }
{
    let segments = positional_in(alloc, matches, "segments")?;
    let request = positional_in(alloc, matches, "request")?;
    let split = split_in(matches)?;
    let idle = idle_in(matches)?;
    Ok(Command::Read {
        segments,
        request,
        split,
        idle,
    })
}

/// What the matches of `tree` ask.
#[tactic(auto, unfolding(crate::specs::Words::tree_command))]
pub fn tree_of(alloc: Global, matches: &ArgMatches<'_>) -> Result<Command, WordsError>
    ensures command { Answers (tree_command (rows_in matches.now)) result }
    ensures bounds { IfOk result IsWithinBounds }
{
    let request = positional_in(alloc, matches, "request")?;
    Ok(Command::Tree { request })
}

/// What the matches of `demo` ask.
#[tactic(auto, unfolding(crate::specs::Words::demo_command))]
pub fn demo_of(matches: &ArgMatches<'_>) -> Result<Command, WordsError>
    ensures command { Answers (demo_command (rows_in matches.now)) result }
    ensures bounds { IfOk result IsWithinBounds }
{
    let Some(text) = text_in(matches, "number") else {
        return Err(WordsError::Usage);
    };
    let Some(number) = number_between(0, MAX_DEMO_ROWS, text) else {
        return Err(WordsError::Usage);
    };
    Ok(Command::Demo { number })
}

/// The number of workers, where one is said.
#[tactic(auto, unfolding(crate::specs::Words::worker_count))]
fn workers_in(matches: &ArgMatches<'_>) -> Result<Option<u64>, WordsError>
    ensures count { Answers (worker_count (rows_in matches.now)) result }
    ensures bounds { IfOk result (λ workers. IfSome workers (LiesBetween 1 most_workers)) }
{
    let Some(text) = text_in(matches, "workers") else {
        return Ok(None);
    };
    match number_between(1, MAX_WORKERS, text) {
        Some(number) => Ok(Some(number)),
        None => Err(WordsError::Usage),
    }
}

/// The idle limit, or the default where none is said.
#[tactic(auto, unfolding(crate::specs::Words::idle_limit))]
fn idle_in(matches: &ArgMatches<'_>) -> Result<u64, WordsError>
    ensures limit { Answers (idle_limit (rows_in matches.now)) result }
    ensures some { IfOk result (λ idle. 0 < idle) }
{
    let Some(text) = text_in(matches, "idle") else {
        return Ok(DEFAULT_IDLE);
    };
    number_between(1, u64::MAX, text).ok_or(WordsError::Usage)
}

/// The split rule, or the default where none is said. It has some rows.
#[tactic(auto, unfolding(crate::specs::Words::split_choice))]
fn split_in(matches: &ArgMatches<'_>) -> Result<SplitBy, WordsError>
    ensures choice { Answers (split_choice (rows_in matches.now)) result }
    ensures sized { IfOk result (λ split. IsZeroSize split → ⊥) }
{
    let Some(text) = text_in(matches, "split") else {
        return Ok(SplitBy::default());
    };
    match split_rule(text) {
        Some(rule) => Ok(rule),
        None => Err(WordsError::Usage),
    }
}

/// The text of a positional argument, which has to be there.
fn positional_in(alloc: Global, matches: &ArgMatches<'_>, id: &str) -> Result<Text, WordsError>
    ensures { Answers (first_of id.now (rows_in matches.now)) result }
{
    let Some(text) = text_in(matches, id) else {
        return Err(WordsError::Usage);
    };
    Ok(Text::from_string(String::from_str(alloc, text)?))
}

/// Whether a flag is there.
fn is_set(matches: &ArgMatches<'_>, id: &str) -> bool
    ensures { result ≡ has_flag id.now (rows_in matches.now) }
{
    match text_in(matches, id) {
        Some(text) => text == "true",
        None => false,
    }
}

/// The one text that is held under an id.
fn text_in<'a>(matches: &ArgMatches<'a>, id: &str) -> Option<&'a str>
    ensures { option_map (λ s. s.now) result ≡ first_of id.now (rows_in matches.now) }
{
    matches.get_str(id)
}
