//! What a fault of a setup is, in words for whoever writes setups.

use account_file::{SetupKey, SetupRule};

/// What a key's value has to be.
pub(crate) fn demand_of(key: SetupKey) -> &'static str {
    match key {
        SetupKey::File => "at most 8,388,608 bytes of TOML",
        SetupKey::Other => "a key of a setup",
        SetupKey::Socket => "a text of 1 to 100 printable ASCII characters",
        SetupKey::Launcher | SetupKey::Vault | SetupKey::Words => {
            "a text of 1 to 255 printable ASCII characters"
        }
        SetupKey::Banner => "a text of at most 200 printable ASCII characters",
        SetupKey::Salt | SetupKey::Seed => "a text of 1 to 16 ASCII letters and digits",
        SetupKey::Frames => "\"narrow\" or \"wide\"",
        SetupKey::Workers => "a whole number from 1 to 64",
        SetupKey::Connections => "a whole number from 1 to 4,096",
        SetupKey::Requests => "a whole number from 8 to 4,096",
        SetupKey::Tries => "a whole number from 1 to 10",
        SetupKey::Hold => "a whole number of milliseconds from 1 to 3,600,000",
        SetupKey::Info => "at most 32 different whole numbers from 1 to 1,000",
        SetupKey::Account => "at most 1,024 tables",
        SetupKey::Name => "1 to 32 of a-z, 0-9, _ and -, the first of a-z and _",
        SetupKey::Uid => "a whole number from 1 to 4,294,967,294",
        SetupKey::Algorithm => "\"md5\" or \"sha1\"",
        SetupKey::Sequence => "a whole number from 0 to 9,999",
        SetupKey::Password => "a text of 16 hexadecimal digits",
        SetupKey::Enabled => "true or false",
        SetupKey::Grants => "at most 64 tables of a name and a mode",
        SetupKey::GrantName => "1 to 64 of a-z, 0-9, ., _ and -, the first of a-z",
        SetupKey::GrantMode => "1 to read, 2 to write or 3 for both",
    }
}

/// What a key's value may not be that is there a second time.
pub(crate) fn twice_text(key: SetupKey) -> &'static str {
    match key {
        SetupKey::Info => "lists a number twice",
        SetupKey::GrantName => "is that of an earlier grant",
        _ => "is that of an earlier account",
    }
}

/// Whether a rule is about what the key's value has to be.
pub(crate) fn is_demand(rule: SetupRule) -> bool {
    matches!(rule, SetupRule::Kind | SetupRule::Text | SetupRule::Range)
}
