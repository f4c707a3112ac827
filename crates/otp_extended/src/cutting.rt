//! Texts that are cut at a colon, and at spaces and tabs.

ghost use Rattle.std.specs.Prelude.{◌≡◌, ◌∷◌, [], ◌≤◌, IfSome, List, None, ℕ, length};
ghost use Rattle.std.specs.List.{prefix_len};
ghost use Rattle.std.specs.Option.{IsSomeAnd};
ghost use Rattle.otp_extended.specs.Parts.{parts_of};
ghost use Rattle.otp_extended.specs.Inner.{HasPieces, IsCutAtBlanks, is_no_colon};

use otp_words::{gap_len, word_len};

/// A text in two pieces, without what stood between them.
#[derive(Clone, Copy)]
pub(crate) struct Pieces<'a> {
    pub(crate) front: &'a [u8],
    pub(crate) rest: &'a [u8],
}

/// What stands before the first colon, and after it. `None` where there is no colon.
pub(crate) fn cut_at_colon(text: &[u8]) -> Option<Pieces<'_>>
    ensures cut { IfSome result (λ pieces. parts_of text.now ≡ pieces.front.now ∷ parts_of pieces.rest.now) }
    ensures whole { result ≡ None → parts_of text.now ≡ text.now ∷ [] }
{
    let (front, behind) = text.split_at(part_len(text));
    match behind {
        [] => None,
        [_, rest @ ..] => Some(Pieces { front, rest }),
    }
}

/// The number of bytes before the first colon.
fn part_len(text: &[u8]) -> usize
    ensures { result ≡ prefix_len is_no_colon text.now }
{
    text.iter().take_while(|byte| **byte != b':').count()
}

/// What stands before the first run of spaces and tabs, and after it. `None` where there is none.
pub(crate) fn cut_at_blanks(text: &[u8]) -> Option<Pieces<'_>>
    ensures cut { IfSome result (λ pieces. IsCutAtBlanks text.now pieces.front.now pieces.rest.now) }
    ensures only { (front rest : List ℕ) → IsCutAtBlanks text.now front rest →
        IsSomeAnd result (λ pieces. HasPieces front rest pieces.front.now pieces.rest.now) }
{
    let (front, behind) = text.split_at(word_len(text));
    let (gap, rest) = behind.split_at(gap_len(behind));
    if gap.is_empty() {
        return None;
    }
    Some(Pieces { front, rest })
}
