//! Command lines, read by `clap`. Believe `specs/Words.antt`; the top call stands above.
//!
//! A command line is a mode and any number of arguments after it. An argument that begins with `-` is
//! refused before `clap` sees it, so there are no options, and no help.
#![tactic(auto)]

mod command;

pub use command::{CommandLine, read_command_line};
