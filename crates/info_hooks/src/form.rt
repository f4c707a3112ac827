//! Forms: the pieces of what a stored function says.

ghost use Rattle.std.specs.Prelude.{◌≡◌, ◌≤◌, length, take};

use crate::card::Short;

/// The most pieces of a form.
const PIECES_MAX: usize = 8;

/// A part of a form: a fixed text, or a part of the card.
#[derive(Clone, Copy)]
pub enum Piece {
    Fixed(Short),
    Name,
    /// In decimal digits.
    Uid,
    /// `md5` or `sha1`.
    Algo,
    /// In decimal digits.
    Sequence,
}

/// At most eight pieces, one after the other.
#[derive(Clone, Copy)]
pub struct Form {
    pieces: [Piece; 8],
    len: u8,
    ghost whole: { length pieces ≡ 8 },
    ghost within: { len ≤ 8 },
}

impl Form {
    /// The form of these pieces.
    pub fn of(pieces: &[Piece]) -> Form
        requires { length pieces.now ≤ 8 }
        ensures { take result.len result.pieces ≡ pieces.now }
    {
        let mut padded = [Piece::Name; PIECES_MAX];
        padded[..pieces.len()].copy_from_slice(pieces);
        Form {
            pieces: padded,
            len: pieces.len() as u8,
        }
    }

    /// The pieces.
    pub fn as_slice(&self) -> &[Piece]
        ensures pieces { result.now ≡ take self.now.len self.now.pieces }
        ensures few { length result.now ≤ 8 }
    {
        &self.pieces[..usize::from(self.len)]
    }
}
