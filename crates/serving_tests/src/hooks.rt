ghost use Rattle.std.specs.Prelude.{◌≡◌, ◌++◌, []};
ghost use Rattle.request_catalogue.specs.TextBytes.{name_bytes};
ghost use Rattle.info_hooks.specs.Texts.{info_bytes};

use info_hooks::*;
use otp_hash::Algo;
use request_catalogue::Name;
use std::test::*;

/// The card of a user with a name.
fn card_of(name: &[u8], uid: u32, algo: Algo, sequence: u16) -> Result<Card, Fail> {
    Ok(Card {
        name: Name::of(name).ok_or("a name")?,
        uid,
        algo,
        sequence,
    })
}

#[test]
fn what_forms_say(rt: HostRuntime) -> Result<(), Fail> {
    let bob = card_of(b"bob", 1_001, Algo::Sha1, 1)?;
    let form = Form::of(&[
        Piece::Fixed(Short::of(b"name=")),
        Piece::Name,
        Piece::Fixed(Short::of(b" uid=")),
        Piece::Uid,
    ]);
    assert!(rt; form.say(&bob).as_slice() == b"name=bob uid=1001".as_slice());
    let form = Form::of(&[Piece::Algo, Piece::Fixed(Short::of(b" ")), Piece::Sequence]);
    assert!(rt; form.say(&bob).as_slice() == b"sha1 1".as_slice());
    let last = card_of(b"_", u32::MAX, Algo::Md5, u16::MAX)?;
    assert!(rt; form.say(&last).as_slice() == b"md5 65535".as_slice());
    assert!(rt; Form::of(&[]).say(&bob).as_slice() == b"".as_slice());
    let long = Form::of(&[Piece::Fixed(Short::of(&[b'x'; 32])); 8]);
    assert!(rt; long.say(&bob).as_slice() == [b'x'; 256].as_slice());
    Ok(())
}

/// Says the name.
fn say_name(card: &Card) -> InfoText
    ensures { info_bytes result ≡ name_bytes card.now.name ++ [] }
{
    InfoText::of(card.name.as_slice())
}

/// A hook of a number that says the name.
#[tactic(auto, unfolding(info_hooks::specs::Said::said))]
fn naming(number: u32) -> Hook
    ensures { result.key.number ≡ number }
{
    Hook::new(number, Form::of(&[Piece::Name]), say_name)
}

#[test]
fn hooks_of_one_number(rt: HostRuntime) -> Result<(), Fail> {
    let rows: [(&[u32], Option<u32>); 6] = [
        (&[], None),
        (&[1], None),
        (&[3, 1, 2], None),
        (&[1, 1], Some(1)),
        (&[7, 2, 7, 5, 2], Some(2)),
        (&[2, 7, 7, 2, 9], Some(2)),
    ];
    for (numbers, twice) in rows {
        let mut list = Vec::new(rt.alloc());
        for number in numbers {
            list.push(naming(*number))?;
        }
        let hooks = Hooks::new(list);
        let fault = twice.map(|number| HooksFault::Twice { number });
        assert!(rt; hooks.err() == fault);
    }
    Ok(())
}

#[test]
fn what_hooks_say(rt: HostRuntime) -> Result<(), Fail> {
    let mut list = Vec::new(rt.alloc());
    list.push(naming(7))?;
    let hooks = Hooks::new(list).ok().ok_or("hooks")?;
    assert!(rt; !hooks.has(6));
    assert!(rt; hooks.has(7));
    if hooks.has(7) {
        let bob = card_of(b"bob", 1_001, Algo::Sha1, 1)?;
        assert!(rt; hooks.say(7, &bob).as_slice() == b"bob".as_slice());
    }
    Ok(())
}
