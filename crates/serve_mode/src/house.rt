//! What a run serves by.

use info_hooks::{Card, InfoText};
use otp_words::Dictionary;
use policy_model::Setup;
use service_reading::Information;
use session_asking::Texts;

/// What a run serves by: the setup, the word list of its passwords, and the information that it can say.
#[derive(Drop)]
pub(crate) struct House<'a, I: Information> {
    pub(crate) setup: Setup,
    pub(crate) dictionary: Dictionary,
    pub(crate) information: &'a I,
}

impl<'a, I: Information> Texts for House<'a, I> {
    ghost use Rattle.serve_mode.specs.Steps.{service_by};

    ghost service = { λ h. service_by h.setup h.dictionary (I.forms h.information.now) };

    fn setup(&self) -> &Setup {
        let setup = &self.setup;
        // That it is in range is what its own calls say.
        setup.parts();
        setup
    }

    fn dictionary(&self) -> &Dictionary {
        &self.dictionary
    }

    fn say(&self, number: u32, card: &Card) -> Option<InfoText> {
        self.information.say(number, card)
    }
}
