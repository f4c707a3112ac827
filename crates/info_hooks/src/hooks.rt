//! Hooks: functions that say information, by numbers.

ghost use Rattle.std.specs.Prelude.{◌≡◌, map};
ghost use Rattle.info_hooks.specs.declared.card.InfoText.{InfoText};
ghost use Rattle.info_hooks.specs.Said.{IsCard, said};
ghost use Rattle.info_hooks.specs.Texts.{info_bytes};

use crate::card::{Card, InfoText};
use crate::form::Form;
use crate::key::{HooksFault, Key};
use crate::twice::{least_twice, numbered};

/// A function that says its form's text of every card.
#[derive(Drop)]
pub struct Hook {
    pub(crate) key: Key,
    say: fn(&Card) -> InfoText,
    ghost callable: { (c : _) → IsCard c.now → pre say c },
    ghost says: { (c : _) (text : InfoText) → IsCard c.now → post say c text → info_bytes text ≡ said key.form c.now },
}

impl Hook {
    /// The hook of a number. On every card `say` may be called, and gives what the form says.
    pub fn new(number: u32, form: Form, say: fn(&Card) -> InfoText) -> Hook
        requires callable { (c : _) → IsCard c.now → pre say c }
        requires says { (c : _) (text : InfoText) → IsCard c.now → post say c text → info_bytes text ≡ said form c.now }
        ensures { result.key ≡ record { number = number; form = form } }
    {
        Hook {
            key: Key { number, form },
            say,
        }
    }

    /// The number of the hook.
    pub(crate) fn number(&self) -> u32
        ensures { result ≡ self.now.key.number }
    {
        self.key.number
    }

    /// What the hook says of a card.
    fn say(&self, card: &Card) -> InfoText
        ensures { info_bytes result ≡ said self.now.key.form card.now }
    {
        let (_uid, _sequence) = (card.uid, card.sequence);
        (self.say)(card)
    }
}

/// Hooks of different numbers.
#[derive(Drop)]
pub struct Hooks {
    list: Vec<Hook>,
}

impl Hooks {
    ghost use Rattle.std.specs.Prelude.{true, ◌==◌, find, is_some, IfSome, MatchResult};
    ghost use Rattle.info_hooks.specs.Hooks.{AreOnce, IsRefused, numbers_of};

    /// These hooks together. `Twice` exactly where two have one number, with the least such number.
    pub fn new(list: Vec<Hook>) -> Result<Hooks, HooksFault>
        ensures { let keys = map (λ h. h.key) list.items in
            MatchResult result (λ hooks. (map (λ h. h.key) hooks.list.items ≡ keys) × AreOnce (numbers_of keys))
            (IsRefused (numbers_of keys)) }
    {
        match least_twice(list.as_slice()) {
            None => Ok(Hooks { list }),
            Some(number) => Err(HooksFault::Twice { number }),
        }
    }

    /// Whether there is a hook of this number.
    pub fn has(&self, number: u32) -> bool
        ensures { result ≡ is_some (find (λ h. h.key.number == number) self.now.list.items) }
    {
        numbered(self.list.as_slice(), number).is_some()
    }

    /// What the hook of this number says of a card.
    pub fn say(&self, number: u32, card: &Card) -> InfoText
        requires { is_some (find (λ h. h.key.number == number) self.now.list.items) ≡ true }
        ensures { IfSome (find (λ h. h.key.number == number) self.now.list.items) (λ h. info_bytes result
            ≡ said h.key.form card.now) }
    {
        match numbered(self.list.as_slice(), number) {
            Some(hook) => hook.say(card),
            None => unreachable!(),
        }
    }
}
