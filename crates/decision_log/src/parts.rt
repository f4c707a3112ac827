//! The parts of a line.

ghost use Rattle.std.specs.Prelude.{◌≡◌, ◌≤◌, length};
ghost use Rattle.std.specs.List.{position_or_len};
ghost use Rattle.decision_log.specs.Parts.{behind_part, behind_space, ends_part, first_part};

/// A part, and what stands after it.
#[derive(Clone, Copy)]
pub(crate) struct Part<'a> {
    pub bytes: &'a [u8],
    pub rest: &'a [u8],
}

/// The first part of a text: it ends at a space or a newline.
pub(crate) fn first_part(text: &[u8]) -> Part<'_>
    ensures bytes { result.bytes.now ≡ first_part text.now }
    ensures rest { result.rest.now ≡ behind_part text.now }
{
    let (bytes, rest) = text.split_at(part_len(text));
    Part { bytes, rest }
}

/// How many bytes stand before the first space or newline.
fn part_len(text: &[u8]) -> usize
    ensures len { result ≡ position_or_len ends_part text.now }
    ensures within { result ≤ length text.now }
{
    let mut len = 0;
    while len < text.len() && !ends_part(text[len]) {
        len += 1;
    }
    len
}

/// Whether a byte ends a part.
fn ends_part(byte: u8) -> bool
    ensures { result ≡ ends_part byte }
{
    matches!(byte, b' ' | b'\n')
}

/// The part after a space; an empty one, and nothing after it, where no space stands in front.
pub(crate) fn next_part(text: &[u8]) -> Part<'_>
    ensures bytes { result.bytes.now ≡ first_part (behind_space text.now) }
    ensures rest { result.rest.now ≡ behind_part (behind_space text.now) }
{
    match text {
        [b' ', rest @ ..] => first_part(rest),
        _ => first_part(&[]),
    }
}
