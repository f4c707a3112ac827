//! The keys that have a meaning.

ghost use Rattle.std.specs.Prelude.{◌≡◌, List, ℕ};
ghost use Rattle.std.specs.List.{list_any};
ghost use Rattle.std.specs.Str.{bytes_eq};
ghost use Rattle.toml.specs.View.{table_view};
ghost use Rattle.account_file.specs.Accounts.{grant_keys, account_keys};
ghost use Rattle.account_file.specs.Levels.{keys_at};
ghost use Rattle.account_file.specs.Setups.{setup_keys};
ghost use Rattle.account_file.specs.Trees.{are_known};

use toml::Table;

/// A kind of table of a setup file.
#[derive(Clone, Copy, PartialEq, Eq)]
pub enum Level {
    /// The file's own table.
    File,
    /// The table of an account.
    Account,
    /// The table of a grant.
    Grant,
}

/// Whether each key of a table has a meaning there.
pub fn are_known(table: &Table, level: Level) -> bool
    ensures { result ≡ are_known (keys_at level) (table_view table.now) }
{
    for key in table.keys() {
        if !is_known(key.as_str(), level) {
            return false;
        }
    }
    true
}

/// Whether a key has a meaning in a table of that kind.
fn is_known(key: &str, level: Level) -> bool
    ensures { result ≡ list_any (bytes_eq key.now) (keys_at level) }
{
    match level {
        Level::File => is_file_key(key),
        Level::Account => is_account_key(key),
        Level::Grant => is_grant_key(key),
    }
}

fn is_file_key(key: &str) -> bool
    ensures { result ≡ list_any (bytes_eq key.now) setup_keys }
{
    key == "socket"
        || key == "launcher"
        || key == "vault"
        || key == "words"
        || key == "banner"
        || key == "salt"
        || key == "frames"
        || key == "workers"
        || key == "connections"
        || key == "requests"
        || key == "tries"
        || key == "hold"
        || key == "info"
        || key == "account"
}

fn is_account_key(key: &str) -> bool
    ensures { result ≡ list_any (bytes_eq key.now) account_keys }
{
    key == "name"
        || key == "uid"
        || key == "algorithm"
        || key == "seed"
        || key == "sequence"
        || key == "password"
        || key == "enabled"
        || key == "grants"
}

fn is_grant_key(key: &str) -> bool
    ensures { result ≡ list_any (bytes_eq key.now) grant_keys }
{
    key == "name" || key == "mode"
}
