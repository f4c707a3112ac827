//! The passwords that a reply may spell.

/// The passwords that a text spells: in six words, and in hexadecimal digits.
#[derive(Clone, Copy, PartialEq, Eq)]
pub struct Candidates {
    /// The password in six words of the dictionary, in any letter case, parted by one or more
    /// spaces or tabs, with right check bits.
    pub words: Option<u64>,
    /// The password in 16 hexadecimal digits of any case, with spaces and tabs anywhere.
    pub hex: Option<u64>,
}
