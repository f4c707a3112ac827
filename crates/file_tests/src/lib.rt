//! The tests of files and words, which stand apart so that no crate waits for them.
#![tactic(auto)]

#[cfg(test)]
mod command_lines;
#[cfg(test)]
mod fronts;
#[cfg(test)]
mod kept;
#[cfg(test)]
mod setup_files;
#[cfg(test)]
mod setups;
#[cfg(test)]
mod written_setups;
