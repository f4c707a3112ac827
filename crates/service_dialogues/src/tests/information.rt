//! Information that stored functions say.

ghost use Rattle.std.specs.Prelude.{◌≡◌, ◌++◌, [], codes};
ghost use Rattle.std.specs.Fmt.{decimal};
ghost use Rattle.info_hooks.specs.declared.card.Card.{Card};
ghost use Rattle.info_hooks.specs.Said.{IsCard, said};
ghost use Rattle.info_hooks.specs.Texts.{info_bytes};
ghost use Rattle.request_catalogue.specs.TextBytes.{name_bytes};

use super::{Row, goes};
use info_hooks::{Card, Form, Hook, Hooks, InfoText, Piece, Short};
use std::alloc::Global;
use std::sync::Wait;
use std::test::Fail;
use std::thread::Threads;

/// A user's name and number.
#[tactic(auto, unfolding(info_hooks::specs::Said::said))]
fn person_form() -> Form
    ensures { (card : Card) → said result card ≡ codes "name=" ++ name_bytes card.name ++ codes " uid="
        ++ decimal card.uid ++ [] }
{
    Form::of(&[
        Piece::Fixed(Short::of(b"name=")),
        Piece::Name,
        Piece::Fixed(Short::of(b" uid=")),
        Piece::Uid,
    ])
}

/// Says a user's name and number.
fn say_person(card: &Card) -> InfoText
    requires { IsCard card.now }
    ensures { info_bytes result ≡ codes "name=" ++ name_bytes card.now.name ++ codes " uid=" ++ decimal card.now.uid
        ++ [] }
{
    person_form().say(card)
}

/// The longest text: eight pieces of 32 bytes.
#[tactic(auto, unfolding(info_hooks::specs::Said::said))]
fn long_form() -> Form
    ensures { (card : Card) → let x = codes "xxxxxxxxxxxxxxxxxxxxxxxxxxxxxxxx" in said result card ≡ x ++ x ++ x ++ x
        ++ x ++ x ++ x ++ x ++ [] }
{
    let piece = Piece::Fixed(Short::of(b"xxxxxxxxxxxxxxxxxxxxxxxxxxxxxxxx"));
    Form::of(&[piece; 8])
}

/// Says the longest text.
fn say_long(card: &Card) -> InfoText
    requires { IsCard card.now }
    ensures { let x = codes "xxxxxxxxxxxxxxxxxxxxxxxxxxxxxxxx" in info_bytes result ≡ x ++ x ++ x ++ x ++ x ++ x ++ x
        ++ x ++ [] }
{
    long_form().say(card)
}

/// A user may ask for the numbers of the setup alone, and the longest text has a frame of 273 bytes.
const INFORMATION: Row<'static> = Row {
    setup: "info = [1, 3]",
    sessions: &[
        "pre challenge 'alice = 00 'otp-md5 20 '0 20 'test 0a
         pre reply '9e876134d90499dd = 00
         pre export 4f545331 010000 020000 030800 00000000 00000000 =
         user info 01000000 = 00 'name=alice 20 'uid=1000
         user info 02000000 = 01 16 02000000
         user info 03000000 = 00 \
            'xxxxxxxxxxxxxxxxxxxxxxxxxxxxxxxx 'xxxxxxxxxxxxxxxxxxxxxxxxxxxxxxxx \
            'xxxxxxxxxxxxxxxxxxxxxxxxxxxxxxxx 'xxxxxxxxxxxxxxxxxxxxxxxxxxxxxxxx \
            'xxxxxxxxxxxxxxxxxxxxxxxxxxxxxxxx 'xxxxxxxxxxxxxxxxxxxxxxxxxxxxxxxx \
            'xxxxxxxxxxxxxxxxxxxxxxxxxxxxxxxx 'xxxxxxxxxxxxxxxxxxxxxxxxxxxxxxxx
         user finish = 00",
    ],
    told: "",
    log: "1 w0 s1 open permit
2 w0 s1 challenge alice 1000 permit 0
3 w0 s1 reply permit 9e876134d90499dd
4 w0 s1 export 21 permit 0
5 w0 s1 info 1 permit 0
6 w0 s1 info 2 deny 22 2
7 w0 s1 info 3 permit 0
8 w0 s1 finish permit
9 w0 s1 end finished permit
",
};

/// A user's name and number, and the longest text.
fn both_hooks(alloc: Global) -> Result<Hooks, Fail> {
    let list = vec![in alloc;
        Hook::new(1, person_form(), say_person),
        Hook::new(3, long_form(), say_long),
    ]?;
    Ok(Hooks::new(list).ok().ok_or("hooks")?)
}

/// Whether both are said.
fn are_said<R: Threads + Wait + Sync>(rt: &R, alloc: Global) -> Result<bool, Fail> {
    goes(rt, alloc, &INFORMATION, &both_hooks(alloc)?)
}

#[test]
fn information_is_said(rt: HostRuntime) -> Result<(), Fail> {
    assert!(&rt; are_said(&rt, rt.alloc())?);
    Ok(())
}
