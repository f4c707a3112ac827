//! Cards, and the short texts of forms and of information.

ghost use Rattle.std.specs.Prelude.{◌≡◌, ◌≤◌, length};
ghost use Rattle.info_hooks.specs.Texts.{info_bytes, short_bytes};

use fixed_list::FixedList;
use otp_hash::Algo;
use request_catalogue::Name;

/// What information may tell of a user.
#[derive(Clone, Copy, PartialEq, Eq)]
pub struct Card {
    pub name: Name,
    pub uid: u32,
    pub algo: Algo,
    /// How many passwords the user has left.
    pub sequence: u16,
}

/// A fixed text of a form, at most 32 bytes.
#[derive(Clone, Copy, PartialEq, Eq)]
pub struct Short {
    text: FixedList<32>,
}

impl Short {
    /// The text of these bytes.
    pub fn of(bytes: &[u8]) -> Short
        requires { length bytes.now ≤ 32 }
        ensures { short_bytes result ≡ bytes.now }
    {
        Short {
            text: FixedList::of(bytes),
        }
    }

    /// The bytes of the text.
    pub fn as_slice(&self) -> &[u8]
        ensures bytes { result.now ≡ short_bytes self.now }
        ensures len { length result.now ≤ 32 }
    {
        self.text.as_slice()
    }
}

/// What a stored function says, at most 256 bytes.
#[derive(Clone, Copy, PartialEq, Eq)]
pub struct InfoText {
    text: FixedList<256>,
}

impl InfoText {
    /// The text of these bytes.
    pub fn of(bytes: &[u8]) -> InfoText
        requires { length bytes.now ≤ 256 }
        ensures { info_bytes result ≡ bytes.now }
    {
        InfoText {
            text: FixedList::of(bytes),
        }
    }

    /// The bytes of the text.
    pub fn as_slice(&self) -> &[u8]
        ensures bytes { result.now ≡ info_bytes self.now }
        ensures len { length result.now ≤ 256 }
    {
        self.text.as_slice()
    }
}
