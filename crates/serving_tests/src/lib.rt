//! The tests of information, of the children's keeper, of the book, of turns and of what a request is answered,
//! which stand apart so that no crate waits for them.
#![tactic(auto)]

#[cfg(test)]
mod asking;
#[cfg(test)]
mod books;
#[cfg(test)]
mod hooks;
#[cfg(test)]
mod keepers;
#[cfg(test)]
mod turns;
