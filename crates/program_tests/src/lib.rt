//! The tests of the drill, the words of `serve`, the top call and the messages, which stand apart so that no
//! crate waits for them.
#![tactic(auto)]

#[cfg(test)]
mod drills;
#[cfg(test)]
mod message_lines;
#[cfg(test)]
mod plans;
#[cfg(test)]
mod serve_commands;
#[cfg(test)]
mod top_calls;
