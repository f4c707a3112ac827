//! What is decided, in the rows of tests.

use policy_model::Decision;

/// What is decided: a permit with its value, a denial with its rule and detail.
#[derive(Clone, Copy)]
pub enum Said {
    Permit(u64),
    Deny(u8, u32),
    Lost,
}

/// The decision that this says.
pub fn decision_of(said: Said) -> Decision {
    match said {
        Said::Permit(value) => Decision::Permit { value },
        Said::Deny(rule, detail) => Decision::Deny { rule, detail },
        Said::Lost => Decision::Lost,
    }
}
