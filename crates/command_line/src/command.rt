//! The command that `clap` parses, and what it finds.

ghost use Rattle.std.specs.Prelude.{◌≡◌, IfOk, None, Ok, codes, is_some, option_map, true};
ghost use Rattle.std.specs.List.{list_any};
ghost use Rattle.clap.specs.Words.{app_of, first_value, found_of, kind_of};
ghost use Rattle.command_line.specs.Command.{word_command, words_found};
ghost use Rattle.command_line.specs.Words.{are_plain, begins_with_hyphen, words_without_hyphen, words_of_line};

use clap::error::ErrorKind;
use clap::{Arg, ArgAction, ArgMatches, Command, Error};
use outside::Word;
use std::alloc::{AllocError, Global};

/// A command line: the mode, and the arguments after it.
#[derive(Drop)]
pub struct CommandLine<'a> {
    /// The first argument.
    pub mode: &'a str,
    /// The arguments after it, in their order.
    pub further: Vec<&'a str>,
}

/// Reads a command line, without the program's name. `None` exactly where there is no argument, or one
/// begins with `-`; that answer needs no memory.
///
/// The error: out of memory.
pub fn read_command_line<'a>(
    alloc: Global,
    words: &'a [Word],
) -> Result<Option<CommandLine<'a>>, AllocError>
    ensures words { IfOk result (λ line.
        option_map words_of_line line ≡ words_without_hyphen words.now) }
    ensures refused { words_without_hyphen words.now ≡ None → result ≡ Ok None }
{
    if !are_plain(words) {
        return Ok(None);
    }
    let found = matches_of(alloc, words)?;
    Ok(Some(line_of(alloc, &found)?))
}

/// Whether there is a word, and none begins with `-`.
fn are_plain(words: &[Word]) -> bool
    ensures { result ≡ are_plain words.now }
{
    !words.is_empty() && !any_begins_with_hyphen(words)
}

/// Whether one of the words begins with `-`.
fn any_begins_with_hyphen(words: &[Word]) -> bool
    ensures { result ≡ list_any begins_with_hyphen words.now }
{
    words.iter().any(|word| begins_with_hyphen(word))
}

/// Whether a word begins with `-`.
fn begins_with_hyphen(word: &Word) -> bool
    ensures { result ≡ begins_with_hyphen word.now }
{
    word.as_str().starts_with('-')
}

/// What is found in words of which none begins with `-`: all of them. `clap` refuses none of them,
/// so the only error is: out of memory.
fn matches_of<'a>(alloc: Global, words: &'a [Word]) -> Result<ArgMatches<'a>, AllocError>
    requires { are_plain words.now ≡ true }
    ensures all { IfOk result (λ m. words_found m ≡ words.now) }
    ensures mode { IfOk result (λ m. is_some (first_value (found_of m) (codes "mode")) ≡ true) }
{
    let command = word_command(alloc)?;
    match command.try_get_matches_from(words) {
        Ok(found) => Ok(found),
        Err(error) => Err(want_of_memory(&error)),
    }
}

/// The command: a required mode, and any number of words after it. It has no flags of its own, and
/// the program's name isn't among the words.
fn word_command<'a>(alloc: Global) -> Result<Command<'a>, AllocError>
    ensures { IfOk result (λ c. app_of c ≡ word_command) }
{
    let mode = Arg::new(alloc, "mode")
        .action(ArgAction::Set)
        .required(true);
    let further = Arg::new(alloc, "words")
        .action(ArgAction::Append)
        .num_args(0..);
    Command::new(alloc, "otplogd")
        .no_binary_name(true)
        .disable_help_flag(true)
        .disable_version_flag(true)
        .arg(mode)?
        .arg(further)
}

/// Out of memory, as the error of the standard library.
fn want_of_memory(error: &Error) -> AllocError
    requires { kind_of error.now ≡ ErrorKind.OutOfMemory }
{
    match error.kind() {
        ErrorKind::OutOfMemory => AllocError,
        _ => unreachable!(),
    }
}

/// The command line of what was found. The error: out of memory.
fn line_of<'a>(alloc: Global, found: &ArgMatches<'a>) -> Result<CommandLine<'a>, AllocError>
    requires { is_some (first_value (found_of found.now) (codes "mode")) ≡ true }
    ensures { IfOk result (λ line. words_of_line line ≡ words_found found.now) }
{
    let mode = found.get_str("mode").unwrap();
    let further = match found.get_strs("words") {
        Some(words) => Vec::from_slice(alloc, words)?,
        None => Vec::new(alloc),
    };
    Ok(CommandLine { mode, further })
}
