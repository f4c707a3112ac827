//! The command line as clap reads it, and why it refuses one.

use crate::modes::{MODES, Mode};
use clap::{Arg, ArgAction, Command, Error, value_parser};
use outside::Word;
use std::alloc::{AllocError, Global};

/// What the program does.
const ABOUT: &str = "A login service with one-time passwords (RFC 2289). otplogd(8) describes it.";

/// The program's version, and by what its source is proved.
const VERSION: &str =
    "1.0\nIts source is proved by Rattle (rattle-kit-13f, logic dac8208d650f15bf).";

/// The command line as clap reads it.
fn command_line<'a>(alloc: Global) -> Result<Command<'a>, AllocError> {
    let mut command = Command::new(alloc, "otplogd")
        .about(ABOUT)
        .version(VERSION)
        .no_binary_name(true)
        .subcommand_required(true);
    for mode in &MODES {
        command = command.subcommand(mode_command(alloc, mode)?)?;
    }
    Ok(command)
}

/// A mode as clap reads it.
fn mode_command<'a>(alloc: Global, mode: &'static Mode) -> Result<Command<'a>, AllocError> {
    let command = Command::new(alloc, mode.word)
        .about(mode.about)
        .after_help(mode.rule)
        .override_usage(mode.usage);
    match mode.word {
        "serve" => command.arg(file(alloc, "SETUP"))?.arg(file(alloc, "LOG")),
        "check" => command.arg(file(alloc, "SETUP").required(true)),
        "renew" => named(command, alloc, "NAME")?.arg(file(alloc, "LOG")),
        "enrol" => enrol_arguments(command, alloc),
        "otp" => otp_arguments(command, alloc),
        "drill" => command.arg(number(alloc, "N", 1, 64)),
        _ => named(command, alloc, "LOG"),
    }
}

/// The arguments of a mode that takes a setup and one thing more.
fn named<'a>(
    command: Command<'a>,
    alloc: Global,
    name: &'static str,
) -> Result<Command<'a>, AllocError> {
    command
        .arg(file(alloc, "SETUP").required(true))?
        .arg(file(alloc, name).required(true))
}

/// The arguments of `enrol`.
fn enrol_arguments<'a>(command: Command<'a>, alloc: Global) -> Result<Command<'a>, AllocError> {
    command
        .arg(file(alloc, "NAME").required(true))?
        .arg(number(alloc, "UID", 1, 4_294_967_294))?
        .arg(algorithm(alloc))?
        .arg(number(alloc, "N", 1, 9_999))?
        .arg(file(alloc, "SEED"))
}

/// The arguments of `otp`.
fn otp_arguments<'a>(command: Command<'a>, alloc: Global) -> Result<Command<'a>, AllocError> {
    command
        .arg(algorithm(alloc))?
        .arg(number(alloc, "N", 0, 9_999))?
        .arg(file(alloc, "SEED").required(true))?
        .arg(file(alloc, "WORDS"))
}

/// An argument that is any text.
fn file<'a>(alloc: Global, name: &'static str) -> Arg<'a> {
    Arg::new(alloc, name).action(ArgAction::Set)
}

/// An argument that is an algorithm's name.
fn algorithm<'a>(alloc: Global) -> Arg<'a> {
    Arg::new(alloc, "ALGORITHM")
        .required(true)
        .value_parser(["md5", "sha1"].as_slice())
}

/// An argument that is a number in a range.
fn number<'a>(alloc: Global, name: &'static str, least: i64, most: i64) -> Arg<'a> {
    Arg::new(alloc, name)
        .required(true)
        .value_parser(value_parser!(u32).range(least..=most))
}

/// Why clap gives nothing for the words, if it gives nothing.
pub(crate) fn refusal_of(alloc: Global, words: &[Word]) -> Result<Option<Error>, AllocError> {
    let command = command_line(alloc)?;
    match command.try_get_matches_from(words) {
        Ok(_found) => Ok(None),
        Err(error) => Ok(Some(error)),
    }
}
