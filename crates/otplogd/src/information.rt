//! The information that the program can say: of number 1 a user's name and number, of number 2 the
//! algorithm of a user's passwords and how many are left.

ghost use Rattle.std.specs.Prelude.{◌≡◌, ◌++◌, [], codes};
ghost use Rattle.std.specs.Fmt.{decimal};
ghost use Rattle.otp_hash.specs.Names.{algo_name};
ghost use Rattle.info_hooks.specs.declared.card.Card.{Card};
ghost use Rattle.info_hooks.specs.Said.{IsCard, said};
ghost use Rattle.info_hooks.specs.Texts.{info_bytes};
ghost use Rattle.request_catalogue.specs.TextBytes.{name_bytes};

use info_hooks::{Card, Form, InfoText, Piece, Short};

#[tactic(auto, unfolding(info_hooks::specs::Said::said))]
/// A user's name and number.
pub fn person_form() -> Form
    ensures { (card : Card) → said result card
        ≡ codes "name=" ++ name_bytes card.name ++ codes " uid=" ++ decimal card.uid ++ [] }
{
    Form::of(&[
        Piece::Fixed(Short::of(b"name=")),
        Piece::Name,
        Piece::Fixed(Short::of(b" uid=")),
        Piece::Uid,
    ])
}

/// Says a user's name and number.
pub fn say_person(card: &Card) -> InfoText
    requires { IsCard card.now }
    ensures { info_bytes result
        ≡ codes "name=" ++ name_bytes card.now.name ++ codes " uid=" ++ decimal card.now.uid ++ [] }
{
    person_form().say(card)
}

#[tactic(auto, unfolding(info_hooks::specs::Said::said))]
/// The algorithm of a user's passwords, and how many are left.
pub fn chain_form() -> Form
    ensures { (card : Card) → said result card
        ≡ codes "algorithm=" ++ (algo_name card.algo ++ (codes " sequence=" ++ (decimal card.sequence ++ []))) }
{
    Form::of(&[
        Piece::Fixed(Short::of(b"algorithm=")),
        Piece::Algo,
        Piece::Fixed(Short::of(b" sequence=")),
        Piece::Sequence,
    ])
}

/// Says the algorithm of a user's passwords, and how many are left.
pub fn say_chain(card: &Card) -> InfoText
    requires { IsCard card.now }
    ensures { info_bytes result ≡ codes "algorithm="
        ++ (algo_name card.now.algo ++ (codes " sequence=" ++ (decimal card.now.sequence ++ []))) }
{
    chain_form().say(card)
}
