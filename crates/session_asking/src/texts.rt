//! What a run answers from.

ghost use Rattle.std.specs.Prelude.{◌≡◌, ◌==◌, find, option_map};
ghost use Rattle.info_hooks.specs.Said.{said};
ghost use Rattle.info_hooks.specs.Texts.{info_bytes};
ghost use Rattle.policy_model.specs.Settings.{IsInRange};
ghost use Rattle.service_model.specs.Service.{Service};

use info_hooks::{Card, InfoText};
use otp_words::Dictionary;
use policy_model::Setup;

/// What is the same throughout a run: its setup, its word list, and what it says to requests for
/// information.
pub trait Texts {
    ghost service: { Self → Service };

    /// The setup.
    fn setup(&self) -> &Setup
        ensures value { result.now ≡ (service self.now).setup }
        ensures in_range { IsInRange (service self.now).setup };

    /// The word list.
    fn dictionary(&self) -> &Dictionary
        ensures { result.now ≡ (service self.now).words };

    /// What the information of a number says of a card, if there is any.
    fn say(&self, number: u32, card: &Card) -> Option<InfoText>
        ensures { option_map info_bytes result ≡ option_map (λ key. said key.form card.now)
            (find (λ key. key.number == number) (service self.now).forms) };
}
