//! The spellings of one-time passwords (RFC 2289): six words of a dictionary, or hexadecimal digits,
//! and the text of a challenge. Believe `specs/` but for `Inner.antt` and `Readings.antt`; the session
//! loop and the modes stand above.
#![tactic(auto)]

mod blanks;
mod challenge;
mod challenge_reading;
mod dictionary;
mod digits;
mod fault;
mod hexadecimal;
mod number;
mod reading;
mod spellings;
mod words;

pub use blanks::{gap_len, word_len};
pub use challenge::challenge_text;
pub use challenge_reading::{Challenge, Unreadable, read_challenge};
pub use dictionary::Dictionary;
pub use fault::{DictError, DictFault, DictRule};
pub use hexadecimal::to_hex;
pub use number::read_number;
pub use reading::candidates;
pub use spellings::Candidates;
pub use words::to_words;
