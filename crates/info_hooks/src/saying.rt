//! What a form says of a card.

ghost use Rattle.std.specs.Prelude.{◌≡◌, ◌≤◌, ◌+◌};
ghost use Rattle.arrayvec.specs.ArrayVec.{array_vec_len};
ghost use Rattle.text_line.specs.Writing.{WritesUpTo};
ghost use Rattle.info_hooks.specs.Said.{piece_text, said};
ghost use Rattle.info_hooks.specs.Texts.{info_bytes};

use crate::card::{Card, InfoText};
use crate::form::{Form, Piece};
use text_line::{LINE_MAX, Line, put, put_number};

impl Form {
    #[tactic(auto, unfolding(crate::specs::Said::said))]
    /// What the form says of a card: its pieces' texts, one after the other. A text of eight
    /// pieces has at most 256 bytes, so each fits.
    pub fn say(&self, card: &Card) -> InfoText
        ensures { info_bytes result ≡ said self.now card.now }
    {
        let mut line = Line::new();
        for piece in self.as_slice() {
            put_piece(&mut line, piece, card);
        }
        InfoText::of(line.as_slice())
    }
}

/// Appends the text of a piece, at most 32 bytes.
fn put_piece(line: &mut Line, piece: &Piece, card: &Card)
    requires { array_vec_len line.old + 32 ≤ LINE_MAX }
    ensures { WritesUpTo 32 (piece_text card.now piece.now) line.old.items line.new.items }
{
    match piece {
        Piece::Fixed(text) => put(line, text.as_slice()),
        Piece::Name => put(line, card.name.as_slice()),
        Piece::Uid => put_number(line, card.uid),
        Piece::Algo => put(line, card.algo.name().as_bytes()),
        Piece::Sequence => put_number(line, u32::from(card.sequence)),
    }
}
