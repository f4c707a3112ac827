//! Help and the version.

use crate::command::refusal_of;
use clap::Error;
use outside::Word;
use std::alloc::{AllocError, Global};
use std::process::ExitCode;

/// Standard output could not be written.
const NOT_PRINTED: u8 = 11;

/// Whether the words may ask for help or for the version: one begins with `-`, or the first is `help`.
fn may_ask(words: &[Word]) -> bool {
    match words {
        [first, ..] if first.as_str() == "help" => true,
        _ => words.iter().any(|word| word.as_str().starts_with('-')),
    }
}

/// What is printed where the words ask for help or for the version.
fn help_text(alloc: Global, words: &[Word]) -> Result<Option<String>, AllocError> {
    if !may_ask(words) {
        return Ok(None);
    }
    match refusal_of(alloc, words)? {
        Some(error) => help_in(alloc, &error),
        None => Ok(None),
    }
}

/// The text of help or of the version, if this is a request for one.
fn help_in(alloc: Global, error: &Error) -> Result<Option<String>, AllocError> {
    match error.use_stderr() {
        true => Ok(None),
        false => Ok(Some(error.to_string(alloc)?)),
    }
}

/// Prints help or the version to standard output, if the arguments (without the program's name) ask for
/// it, and gives the exit status: 0, or 11 if the text could not be printed whole. `None`: the arguments
/// ask for neither, or there isn't the memory for the answer; then nothing is printed.
pub fn answer_help(rt: &impl Print, alloc: Global, words: &[Word]) -> Option<ExitCode> {
    let text = help_text(alloc, words).ok()??;
    Some(match rt.print(text.as_str()) {
        Ok(()) => ExitCode::SUCCESS,
        Err(_) => ExitCode::from(NOT_PRINTED),
    })
}
