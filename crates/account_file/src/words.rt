//! The words that faults are spelled in.

ghost use Rattle.std.specs.Prelude.{◌≡◌};
ghost use Rattle.account_file.specs.Spellings.{key_word, rule_word};

use crate::fault::{SetupKey, SetupRule};

impl SetupKey {
    /// The key as it is spelled: as in the file, and `file`, `other`, `grant-name` and `grant-mode`.
    pub fn word(self) -> &'static str
        ensures { result.now ≡ key_word self }
    {
        match self {
            SetupKey::File => "file",
            SetupKey::Other => "other",
            SetupKey::Socket => "socket",
            SetupKey::Launcher => "launcher",
            SetupKey::Vault => "vault",
            SetupKey::Words => "words",
            SetupKey::Banner => "banner",
            SetupKey::Salt => "salt",
            SetupKey::Frames => "frames",
            SetupKey::Workers => "workers",
            SetupKey::Connections => "connections",
            SetupKey::Requests => "requests",
            SetupKey::Tries => "tries",
            SetupKey::Hold => "hold",
            SetupKey::Info => "info",
            SetupKey::Account => "account",
            SetupKey::Name => "name",
            SetupKey::Uid => "uid",
            SetupKey::Algorithm => "algorithm",
            SetupKey::Seed => "seed",
            SetupKey::Sequence => "sequence",
            SetupKey::Password => "password",
            SetupKey::Enabled => "enabled",
            SetupKey::Grants => "grants",
            SetupKey::GrantName => "grant-name",
            SetupKey::GrantMode => "grant-mode",
        }
    }
}

impl SetupRule {
    /// The rule as it is spelled.
    pub fn word(self) -> &'static str
        ensures { result.now ≡ rule_word self }
    {
        match self {
            SetupRule::TooLong => "too-long",
            SetupRule::NotToml => "not-toml",
            SetupRule::Unknown => "unknown",
            SetupRule::Missing => "missing",
            SetupRule::Kind => "kind",
            SetupRule::Text => "text",
            SetupRule::Range => "range",
            SetupRule::Twice => "twice",
            SetupRule::Product => "product",
            SetupRule::NoHook => "no-hook",
        }
    }
}
