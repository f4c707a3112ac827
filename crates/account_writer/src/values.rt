//! Single values, and a value that is put at a key.

ghost use Rattle.std.specs.Prelude.{◌≡◌, IfOk, IsUtf8, OnOk};
ghost use Rattle.otp_hash.specs.SeedBytes.{seed_bytes};
ghost use Rattle.request_catalogue.specs.TextBytes.{label_bytes, name_bytes};
ghost use Rattle.toml.specs.Data.{string};
ghost use Rattle.toml.specs.View.{table_view, view};
ghost use Rattle.otp_hash.specs.Names.{algo_name};
ghost use Rattle.policy_model.specs.Settings.{password_text};
ghost use Rattle.account_writer.specs.Puts.{put_member};
ghost use Rattle.account_writer.specs.Tables.{width_word};

use otp_hash::{Algo, Seed};
use request_catalogue::{Label, Name, Width};
use std::alloc::{AllocError, Global};
use toml::{Table, Value};

/// Puts a value at a key of a table.
pub(crate) fn put(
    alloc: Global,
    table: &mut Table,
    key: &str,
    value: Value,
) -> Result<(), AllocError>
    ensures { OnOk result (table_view table.new ≡ put_member key.now (view value) (table_view table.old)) }
{
    let key = String::from_str(alloc, key)?;
    table.insert(key, value)?;
    Ok(())
}

/// A text in UTF-8 as a value.
fn text_value(alloc: Global, bytes: &[u8]) -> Result<Value, AllocError>
    requires { IsUtf8 bytes.now }
    ensures { IfOk result (λ v. view v ≡ string bytes.now) }
{
    let text = std::str::from_utf8(bytes).unwrap();
    Value::string(alloc, text)
}

/// A name as a value.
pub(crate) fn name_value(alloc: Global, name: &Name) -> Result<Value, AllocError>
    ensures { IfOk result (λ v. view v ≡ string (name_bytes name.now)) }
{
    text_value(alloc, name.as_slice())
}

/// A label as a value.
pub(crate) fn label_value(alloc: Global, label: &Label) -> Result<Value, AllocError>
    ensures { IfOk result (λ v. view v ≡ string (label_bytes label.now)) }
{
    text_value(alloc, label.as_slice())
}

/// A seed as a value.
pub(crate) fn seed_value(alloc: Global, seed: &Seed) -> Result<Value, AllocError>
    ensures { IfOk result (λ v. view v ≡ string (seed_bytes seed.now)) }
{
    text_value(alloc, seed.as_slice())
}

/// The name of an algorithm as a value.
pub(crate) fn algo_value(alloc: Global, algo: Algo) -> Result<Value, AllocError>
    ensures { IfOk result (λ v. view v ≡ string (algo_name algo)) }
{
    Value::string(alloc, algo.name())
}

/// The word of a width as a value.
pub(crate) fn width_value(alloc: Global, width: Width) -> Result<Value, AllocError>
    ensures { IfOk result (λ v. view v ≡ string (width_word width)) }
{
    match width {
        Width::Narrow => Value::string(alloc, "narrow"),
        Width::Wide => Value::string(alloc, "wide"),
    }
}

/// A password in 16 hexadecimal digits as a value.
pub(crate) fn password_value(alloc: Global, password: u64) -> Result<Value, AllocError>
    ensures { IfOk result (λ v. view v ≡ string (password_text password)) }
{
    let digits = hex::encode(alloc, password.to_be_bytes())?;
    Ok(Value::from(digits))
}
