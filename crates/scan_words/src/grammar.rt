//! The `clap` command of each mode: which arguments it has, and what it holds after the words.

ghost use Rattle.std.specs.Prelude.{◌≡◌, IfOk, codes, false, map, true, string_bytes};
ghost use Rattle.clap.specs.Words.{app_of, is_simple_and_free, kind_of, rule_of, with_rule};
ghost use Rattle.scan_words.specs.Grammar.{bare_app, demo_app, flag_rule, positional_rule, option_rule, read_app, refusal_of, scan_app, tree_app, Parses};

use crate::commands::WordsError;
use clap::error::ErrorKind;
use clap::{Arg, ArgAction, ArgMatches, Command, Error};
use std::alloc::{AllocError, Global};

/// What the command of `scan` holds after the words.
pub fn scan_matches<'a>(alloc: Global, words: &'a [String]) -> Result<ArgMatches<'a>, WordsError>
    ensures { Parses scan_app (map string_bytes words.entry.now) result }
{
    parse(scan(alloc)?, words)
}

/// What the command of `read` holds after the words.
pub fn read_matches<'a>(alloc: Global, words: &'a [String]) -> Result<ArgMatches<'a>, WordsError>
    ensures { Parses read_app (map string_bytes words.entry.now) result }
{
    parse(read(alloc)?, words)
}

/// What the command of `tree` holds after the words.
pub fn tree_matches<'a>(alloc: Global, words: &'a [String]) -> Result<ArgMatches<'a>, WordsError>
    ensures { Parses tree_app (map string_bytes words.entry.now) result }
{
    parse(tree(alloc)?, words)
}

/// What the command of `demo` holds after the words.
pub fn demo_matches<'a>(alloc: Global, words: &'a [String]) -> Result<ArgMatches<'a>, WordsError>
    ensures { Parses demo_app (map string_bytes words.entry.now) result }
{
    parse(demo(alloc)?, words)
}

/// `scan SEGMENTS REQUEST [--workers N] [--unordered] [--idle N]`
#[tactic(auto, unfolding(crate::specs::Grammar::scan_app))]
fn scan<'a>(alloc: Global) -> Result<Command<'a>, AllocError>
    ensures { IfOk result (λ command. app_of command ≡ scan_app) }
{
    let command = with_positional(alloc, bare(alloc, "scan"), "segments")?;
    let command = with_positional(alloc, command, "request")?;
    let command = with_option(alloc, command, "workers")?;
    let command = with_flag(alloc, command, "unordered")?;
    with_option(alloc, command, "idle")
}

/// `read SEGMENTS REQUEST [--split RULE] [--idle N]`
#[tactic(auto, unfolding(crate::specs::Grammar::read_app))]
fn read<'a>(alloc: Global) -> Result<Command<'a>, AllocError>
    ensures { IfOk result (λ command. app_of command ≡ read_app) }
{
    let command = with_positional(alloc, bare(alloc, "read"), "segments")?;
    let command = with_positional(alloc, command, "request")?;
    let command = with_option(alloc, command, "split")?;
    with_option(alloc, command, "idle")
}

/// `tree REQUEST`
#[tactic(auto, unfolding(crate::specs::Grammar::tree_app))]
fn tree<'a>(alloc: Global) -> Result<Command<'a>, AllocError>
    ensures { IfOk result (λ command. app_of command ≡ tree_app) }
{
    with_positional(alloc, bare(alloc, "tree"), "request")
}

/// `demo N`
#[tactic(auto, unfolding(crate::specs::Grammar::demo_app))]
fn demo<'a>(alloc: Global) -> Result<Command<'a>, AllocError>
    ensures { IfOk result (λ command. app_of command ≡ demo_app) }
{
    with_positional(alloc, bare(alloc, "demo"), "number")
}

/// A command that has no arguments yet, and never any help.
fn bare<'a>(alloc: Global, mode: &'a str) -> Command<'a>
    ensures { app_of result ≡ bare_app mode.entry.now }
{
    Command::new(alloc, mode)
        .no_binary_name(true)
        .disable_help_flag(true)
}

/// The command with one more positional argument, which has to be there.
fn with_positional<'a>(
    alloc: Global,
    command: Command<'a>,
    id: &'a str,
) -> Result<Command<'a>, AllocError>
    ensures { IfOk result (λ more. app_of more
        ≡ with_rule (app_of command.entry) (positional_rule id.entry.now)) }
{
    added(command, Arg::new(alloc, id).required(true))
}

/// The command with one more option that has a text.
fn with_option<'a>(
    alloc: Global,
    command: Command<'a>,
    id: &'a str,
) -> Result<Command<'a>, AllocError>
    ensures { IfOk result (λ more. app_of more
        ≡ with_rule (app_of command.entry) (option_rule id.entry.now)) }
{
    added(command, Arg::new(alloc, id).long(id))
}

/// The command with one more option that has none.
fn with_flag<'a>(
    alloc: Global,
    command: Command<'a>,
    id: &'a str,
) -> Result<Command<'a>, AllocError>
    ensures { IfOk result (λ more. app_of more
        ≡ with_rule (app_of command.entry) (flag_rule id.entry.now)) }
{
    let flag = Arg::new(alloc, id).long(id).action(ArgAction::SetTrue);
    added(command, flag)
}

/// The command with one more argument, of itself alone.
fn added<'a>(command: Command<'a>, arg: Arg<'a>) -> Result<Command<'a>, AllocError>
    requires { arg.global ≡ false }
    ensures { IfOk result (λ more. app_of more ≡ with_rule (app_of command.entry) (rule_of arg.entry)) }
{
    command.arg(arg)
}

/// What the command holds after the words.
fn parse<'a>(command: Command<'a>, words: &'a [String]) -> Result<ArgMatches<'a>, WordsError>
    requires { is_simple_and_free (app_of command) ≡ true }
    ensures { Parses (app_of command.entry) (map string_bytes words.entry.now) result }
{
    match command.try_get_matches_from(words) {
        Ok(matches) => Ok(matches),
        Err(error) => Err(refusal(&error)),
    }
}

/// Why a parse failed, as the program tells it.
fn refusal(error: &Error) -> WordsError
    ensures { result ≡ refusal_of (kind_of error.now) }
{
    match error.kind() {
        ErrorKind::OutOfMemory => WordsError::Memory,
        _ => WordsError::Usage,
    }
}
