//! The information that may be asked for.

ghost use Rattle.std.specs.Prelude.{◌≡◌, ◌==◌, List, find, option_map};
ghost use Rattle.std.specs.List.{list_any};
ghost use Rattle.info_hooks.specs.declared.key.Key.{Key};
ghost use Rattle.info_hooks.specs.Said.{said};
ghost use Rattle.info_hooks.specs.Texts.{info_bytes};

use info_hooks::{Card, Hooks, InfoText};

/// Information that a user may ask for by its number.
pub trait Information {
    // The numbers, each with the form of what is said.
    ghost forms: { Self → List Key };

    /// Whether there is information of this number.
    fn has(&self, number: u32) -> bool
        ensures { result ≡ list_any (λ key. key.number == number) (forms self.now) };

    /// What the information of this number says of a card, if there is any.
    fn say(&self, number: u32, card: &Card) -> Option<InfoText>
        ensures { option_map info_bytes result ≡ option_map (λ key. said key.form card.now)
            (find (λ key. key.number == number) (forms self.now)) };
}

impl Information for Hooks {
    ghost use Rattle.std.specs.Prelude.{map};

    ghost forms = { λ hooks. map (λ hook. hook.key) hooks.list.items };

    fn has(&self, number: u32) -> bool {
        Hooks::has(self, number)
    }

    fn say(&self, number: u32, card: &Card) -> Option<InfoText> {
        if Hooks::has(self, number) {
            Some(Hooks::say(self, number, card))
        } else {
            None
        }
    }
}
