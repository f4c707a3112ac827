//! What is wrong with a command line.

use crate::command::refusal_of;
use crate::modes::{Mode, mode_of};
use clap::Error;
use outside::Word;
use std::alloc::{AllocError, Global};

/// What is wrong with a command line (without the program's name) that is no command, in one line, and
/// the right usage, in two. Each line ends with a newline.
///
/// # Errors
///
/// There isn't the memory for the text.
pub fn mistake_text(alloc: Global, words: &[Word]) -> Result<String, AllocError> {
    let mode = mode_of(words);
    let found = what_is_wrong(alloc, words)?;
    let what = match (found, mode) {
        (Some(what), _) => what,
        (None, Some(mode)) => String::from_str(alloc, mode.rule)?,
        (None, None) => String::from_str(alloc, "this is no command")?,
    };
    match mode {
        Some(Mode { word, usage, .. }) => format!(in alloc;
            "otplogd: {what}\nusage: {usage}\ntry 'otplogd {word} --help'\n"
        ),
        None => format!(in alloc;
            "otplogd: {what}\nusage: otplogd MODE ...\ntry 'otplogd --help'\n"
        ),
    }
}

/// What clap says of a command line, if it refuses it.
fn what_is_wrong(alloc: Global, words: &[Word]) -> Result<Option<String>, AllocError> {
    if words.is_empty() {
        return Ok(Some(String::from_str(alloc, "no mode is named")?));
    }
    match refusal_of(alloc, words)? {
        Some(error) => mistake_in(alloc, &error),
        None => Ok(None),
    }
}

/// What clap says of a mistake, if this is one.
fn mistake_in(alloc: Global, error: &Error) -> Result<Option<String>, AllocError> {
    match error.use_stderr() {
        true => Ok(Some(first_part(alloc, error)?)),
        false => Ok(None),
    }
}

/// What clap says of an error in one line: all up to its first empty line, and then what is similar.
fn first_part(alloc: Global, error: &Error) -> Result<String, AllocError> {
    let text = error.to_string(alloc)?;
    let mut line = String::new(alloc);
    let mut is_first = true;
    for part in text.as_str().lines() {
        is_first = is_first && !part.is_empty();
        let tip = part.trim().strip_prefix("tip: a similar ");
        match (is_first, tip) {
            (true, _) => push_part(&mut line, " ", without_label(part))?,
            (false, Some(tip)) => push_part(&mut line, ": a similar ", tip)?,
            (false, None) => {}
        }
    }
    Ok(line)
}

/// Appends a part to a line, parted from what stands there.
fn push_part(line: &mut String, between: &str, part: &str) -> Result<(), AllocError> {
    if !line.is_empty() {
        line.push_str(between)?;
    }
    line.push_str(part)
}

/// A line of clap's without the word that says that it is an error.
fn without_label(line: &str) -> &str {
    match line.trim().strip_prefix("error: ") {
        Some(rest) => rest,
        None => line.trim(),
    }
}
