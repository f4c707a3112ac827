//! The rules that come before those of a request's own kind: 1 to 7.

ghost use Rattle.std.specs.Prelude.{◌≡◌};
ghost use Rattle.session_laws.specs.Judged.{is_over_phase};
ghost use Rattle.session_table.specs.Judging.{IsRefusal, kind_refusal, refusal_of};

use crate::rows::SessionRow;
use policy_model::{Ask, Decision, Phase, row};
use request_catalogue::{Kind, rules};

/// Whether no ask is permitted any more.
fn is_over(phase: Phase) -> bool
    ensures { result ≡ is_over_phase phase }
{
    matches!(phase, Phase::Over)
}

impl SessionRow {
    /// Rule 6 of a request that the phase doesn't permit, rule 7 of one that may be permitted once only
    /// and was.
    fn kind_refusal(&self, ask: &Ask, kind: Kind) -> Option<Decision>
        ensures { result ≡ kind_refusal self.now ask.now kind }
    {
        let cell = row(self.phase, kind);
        if !cell.permitted {
            Some(Decision::deny(rules::NOT_IN_PHASE, ask.number()))
        } else if cell.once && self.bits.had(kind) {
            Some(Decision::deny(rules::ONCE_ONLY, ask.number()))
        } else {
            None
        }
    }

    /// The rules 1 to 7 in their order.
    fn own_refusal(&self, requests: u32, ask: &Ask) -> Option<Decision>
        ensures { result ≡ refusal_of self.now requests ask.now }
    {
        if is_over(self.phase) {
            return Some(Decision::deny(rules::NOT_IN_PHASE, ask.number()));
        }
        if self.asked == requests {
            return Some(Decision::deny(rules::ASKS_SPENT, requests));
        }
        if let Ask::Bad { rule, detail } = *ask {
            return Some(Decision::deny(rule, detail));
        }
        match ask.kind() {
            None => None,
            Some(kind) => self.kind_refusal(ask, kind),
        }
    }

    /// The denial by a rule of 1 to 7 of an ask that came by a frame, where `requests` are permitted: rule
    /// 6 where the session is over, rule 1 where it has made as many asks, a bad frame's own rule, and
    /// rules 6 and 7 by the phase table. What it doesn't refuse is decided by the rules of its kind.
    pub fn refusal(&self, requests: u32, ask: &Ask) -> Option<Decision>
        ensures value { result ≡ refusal_of self.now requests ask.now }
        ensures verdict { IsRefusal self.now requests ask.now result }
    {
        self.own_refusal(requests, ask)
    }
}
