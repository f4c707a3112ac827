//! The tests of bytes, frames and passwords, which stand apart so that no crate waits for them.
#![tactic(auto)]

#[cfg(test)]
mod frames;
#[cfg(test)]
mod hashes;
#[cfg(test)]
mod lists;
#[cfg(test)]
mod requests;
#[cfg(test)]
mod states;
#[cfg(test)]
mod text_lines;
#[cfg(test)]
mod words;
