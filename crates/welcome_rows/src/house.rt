//! What a login is served by.

use info_hooks::{Card, InfoText};
use otp_words::Dictionary;
use policy_model::Setup;
use session_asking::Texts;

/// What a run serves by: the setup, and the word list of its passwords. It has nothing to say.
#[derive(Drop)]
pub struct House {
    pub setup: Setup,
    pub dictionary: Dictionary,
}

impl Texts for House {
    ghost use Rattle.welcome_rows.specs.Shown.{service_by};

    ghost service = { λ h. service_by h.setup h.dictionary };

    fn setup(&self) -> &Setup {
        let setup = &self.setup;
        // That it is in range is what its own calls say.
        setup.parts();
        setup
    }

    fn dictionary(&self) -> &Dictionary {
        &self.dictionary
    }

    fn say(&self, _: u32, _: &Card) -> Option<InfoText> {
        None
    }
}
