//! Short texts with a rule for their bytes: the names of users, the labels of files, and notes.

ghost use Rattle.std.specs.Prelude.{◌≡◌, ◌≤◌, true, IfSome, is_some, length};
ghost use Rattle.fixed_list.specs.FixedList.{list_of};
ghost use Rattle.std.specs.List.{list_all};
ghost use Rattle.request_catalogue.specs.Texts.{is_name, is_label, is_note, is_typed_reply, is_typed, begins_name};
ghost use Rattle.request_catalogue.specs.Texts.{continues_name, continues_label, is_printable};

use fixed_list::FixedList;

/// The most bytes that a name has.
const NAME_MAX: usize = 32;

/// The most bytes that a label has, and a note.
const TEXT_MAX: usize = 64;

/// The most bytes that a typed reply has.
const REPLY_MAX: usize = 256;

/// A user's name: 1 to 32 bytes, the first `a` to `z` or `_`, the rest of `a` to `z`, `0` to `9`,
/// `_` and `-`.
#[derive(Clone, Copy, PartialEq, Eq)]
pub struct Name {
    text: FixedList<32>,
    ghost legal: { is_name (list_of text) ≡ true },
}

/// A file's label: 1 to 64 bytes, the first `a` to `z`, the rest of `a` to `z`, `0` to `9`, `.`,
/// `_` and `-`.
#[derive(Clone, Copy, PartialEq, Eq)]
pub struct Label {
    text: FixedList<64>,
    ghost legal: { is_label (list_of text) ≡ true },
}

/// A note: 1 to 64 bytes of printable ASCII, space to `~`.
#[derive(Clone, Copy, PartialEq, Eq)]
pub struct Note {
    text: FixedList<64>,
    ghost legal: { is_note (list_of text) ≡ true },
}

impl Name {
    ghost use Rattle.request_catalogue.specs.TextBytes.{name_bytes};

    /// The name of these bytes, where they are one.
    #[tactic(auto, unfolding(crate::specs::Texts::is_name))]
    pub fn of(bytes: &[u8]) -> Option<Self>
        ensures found { IfSome result (λ n. name_bytes n ≡ bytes.now) }
        ensures rule { is_some result ≡ is_name bytes.now }
    {
        if !is_name(bytes) {
            return None;
        }
        Some(Name {
            text: FixedList::of(bytes),
        })
    }

    /// The bytes of the name.
    pub fn as_slice(&self) -> &[u8]
        ensures bytes { result.now ≡ name_bytes self.now }
        ensures legal { is_name result.now ≡ true }
        ensures len { length result.now ≤ 32 }
    {
        self.text.as_slice()
    }
}

impl Label {
    ghost use Rattle.request_catalogue.specs.TextBytes.{label_bytes};

    /// The label of these bytes, where they are one.
    #[tactic(auto, unfolding(crate::specs::Texts::is_label))]
    pub fn of(bytes: &[u8]) -> Option<Self>
        ensures found { IfSome result (λ l. label_bytes l ≡ bytes.now) }
        ensures rule { is_some result ≡ is_label bytes.now }
    {
        if !is_label(bytes) {
            return None;
        }
        Some(Label {
            text: FixedList::of(bytes),
        })
    }

    /// The bytes of the label.
    pub fn as_slice(&self) -> &[u8]
        ensures bytes { result.now ≡ label_bytes self.now }
        ensures legal { is_label result.now ≡ true }
        ensures len { length result.now ≤ 64 }
    {
        self.text.as_slice()
    }
}

impl Note {
    ghost use Rattle.request_catalogue.specs.TextBytes.{note_bytes};

    /// The note of these bytes, where they are one.
    #[tactic(auto, unfolding(crate::specs::Texts::is_note))]
    pub fn of(bytes: &[u8]) -> Option<Self>
        ensures found { IfSome result (λ n. note_bytes n ≡ bytes.now) }
        ensures rule { is_some result ≡ is_note bytes.now }
    {
        if !is_note(bytes) {
            return None;
        }
        Some(Note {
            text: FixedList::of(bytes),
        })
    }

    /// The bytes of the note.
    pub fn as_slice(&self) -> &[u8]
        ensures bytes { result.now ≡ note_bytes self.now }
        ensures legal { is_note result.now ≡ true }
        ensures len { length result.now ≤ 64 }
    {
        self.text.as_slice()
    }
}

#[tactic(auto, unfolding(crate::specs::Texts::is_name))]
fn is_name(bytes: &[u8]) -> bool
    ensures { result ≡ is_name bytes.now }
{
    match bytes {
        [] => false,
        [first, rest @ ..] => bytes.len() <= NAME_MAX && begins_name(*first) && continue_name(rest),
    }
}

#[tactic(auto, unfolding(crate::specs::Texts::is_label))]
fn is_label(bytes: &[u8]) -> bool
    ensures { result ≡ is_label bytes.now }
{
    match bytes {
        [] => false,
        [first, rest @ ..] => {
            bytes.len() <= TEXT_MAX && first.is_ascii_lowercase() && continue_label(rest)
        }
    }
}

#[tactic(auto, unfolding(crate::specs::Texts::is_note))]
fn is_note(bytes: &[u8]) -> bool
    ensures { result ≡ is_note bytes.now }
{
    !bytes.is_empty() && bytes.len() <= TEXT_MAX && are_printable(bytes)
}

/// Whether bytes are a typed reply: 1 to 256 bytes, each a tab or printable.
#[tactic(auto, unfolding(crate::specs::Texts::is_typed_reply))]
pub fn is_typed_reply(bytes: &[u8]) -> bool
    ensures { result ≡ is_typed_reply bytes.now }
{
    !bytes.is_empty() && bytes.len() <= REPLY_MAX && are_typed(bytes)
}

/// Whether a name begins with this byte.
fn begins_name(byte: u8) -> bool
    ensures { result ≡ begins_name byte }
{
    matches!(byte, b'a'..=b'z' | b'_')
}

/// Whether these bytes may stand after a name's first.
fn continue_name(bytes: &[u8]) -> bool
    ensures { result ≡ list_all continues_name bytes.now }
{
    bytes.iter().all(|byte| matches!(byte, b'a'..=b'z' | b'0'..=b'9' | b'_' | b'-'))
}

/// Whether these bytes may stand after a label's first.
fn continue_label(bytes: &[u8]) -> bool
    ensures { result ≡ list_all continues_label bytes.now }
{
    bytes.iter().all(|byte| matches!(byte, b'a'..=b'z' | b'0'..=b'9' | b'.' | b'_' | b'-'))
}

/// Whether all bytes are printable ASCII, space to `~`.
pub fn are_printable(bytes: &[u8]) -> bool
    ensures { result ≡ list_all is_printable bytes.now }
{
    bytes.iter().all(|byte| matches!(byte, b' '..=b'~'))
}

/// Whether all bytes are tabs or printable ASCII.
fn are_typed(bytes: &[u8]) -> bool
    ensures { result ≡ list_all is_typed bytes.now }
{
    bytes.iter().all(|byte| matches!(byte, b'\t' | b' '..=b'~'))
}
