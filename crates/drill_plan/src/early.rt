//! What the children before the login say.

ghost use Rattle.std.specs.Prelude.{◌≡◌, ◌++◌, [], IfOk, OnOk, codes};
ghost use Rattle.request_catalogue.specs.TextBytes.{name_bytes};
ghost use Rattle.request_catalogue.specs.Catalogue.{Export, Reply};
ghost use Rattle.drill_plan.specs.declared.class.Class.TheVariants.{BreaksOff, Exports, LogsIn, Repeats};
ghost use Rattle.drill_plan.specs.Plan.{early_bytes_by, request_bytes};
ghost use Rattle.policy_model.specs.Settings.{password_text};
ghost use Rattle.drill_plan.specs.Requests.{least_record};

use crate::class::Class;
use crate::pen::Pen;
use request_catalogue::{Name, Request};
use state_export::{STATE_MAX, State, write_state};
use std::alloc::{AllocError, Global};

/// How many bytes of a header a child sends that breaks off.
const BROKEN: usize = 7;

/// Whom a session may log in: the user, the password that was accepted last, and the next one.
#[derive(Clone, Copy)]
pub struct Login {
    pub user: Name,
    pub current: u64,
    pub right: u64,
}

/// What the child before the login says in a session of this class.
pub fn early_bytes(
    alloc: Global,
    pen: &mut Pen,
    class: Class,
    login: &Login,
) -> Result<Vec<u8>, AllocError>
    ensures { let l = login.now in IfOk result (λ bytes. bytes.items ≡ early_bytes_by (name_bytes l.user) l.current
        l.right class) }
{
    match class {
        Class::LogsIn => login_bytes(alloc, pen, login),
        Class::Repeats => repeat_bytes(alloc, pen, login),
        Class::Exports => export_bytes(alloc, pen),
        Class::BreaksOff => broken_bytes(alloc, pen, login),
    }
}

/// What a child says that logs its user in.
fn login_bytes(alloc: Global, pen: &mut Pen, login: &Login) -> Result<Vec<u8>, AllocError>
    ensures { let l = login.now in IfOk result (λ bytes. bytes.items ≡ early_bytes_by (name_bytes l.user) l.current
        l.right LogsIn) }
{
    let mut bytes = Vec::new(alloc);
    pen.put(&mut bytes, &Request::Banner)?;
    pen.put(&mut bytes, &Request::Challenge { user: login.user })?;
    put_reply(pen, &mut bytes, login.right)?;
    put_export(pen, &mut bytes)?;
    Ok(bytes)
}

/// What a child says that repeats a password.
fn repeat_bytes(alloc: Global, pen: &mut Pen, login: &Login) -> Result<Vec<u8>, AllocError>
    ensures { let l = login.now in IfOk result (λ bytes. bytes.items ≡ early_bytes_by (name_bytes l.user) l.current
        l.right Repeats) }
{
    let mut bytes = Vec::new(alloc);
    pen.put(&mut bytes, &Request::Challenge { user: login.user })?;
    put_reply(pen, &mut bytes, login.current)?;
    pen.put(&mut bytes, &Request::Finish)?;
    Ok(bytes)
}

/// What a child says that exports a state before its time.
fn export_bytes(alloc: Global, pen: &mut Pen) -> Result<Vec<u8>, AllocError>
    ensures { IfOk result (λ bytes. bytes.items ≡ early_bytes_by [] 0 0 Exports) }
{
    let mut bytes = Vec::new(alloc);
    put_export(pen, &mut bytes)?;
    Ok(bytes)
}

/// What a child says that breaks off.
fn broken_bytes(alloc: Global, pen: &mut Pen, login: &Login) -> Result<Vec<u8>, AllocError>
    ensures { let l = login.now in IfOk result (λ bytes. bytes.items ≡ early_bytes_by (name_bytes l.user) l.current
        l.right BreaksOff) }
{
    let mut bytes = Vec::new(alloc);
    pen.put(&mut bytes, &Request::Challenge { user: login.user })?;
    pen.put(&mut bytes, &Request::Abandon)?;
    pen.put(&mut bytes, &Request::Challenge { user: nobody() })?;
    let mut frame = Vec::new(alloc);
    pen.put(&mut frame, &Request::Finish)?;
    frame.truncate(BROKEN);
    bytes.extend_from_slice(&frame)?;
    Ok(bytes)
}

/// The name that no user has.
fn nobody() -> Name
    ensures { name_bytes result ≡ codes "nobody" }
{
    match Name::of(b"nobody") {
        Some(name) => name,
        None => unreachable!(),
    }
}

/// Appends a REPLY with a password in hexadecimal digits.
fn put_reply(pen: &mut Pen, bytes: &mut Vec<u8>, password: u64) -> Result<(), AllocError>
    ensures { OnOk result (bytes.new.items ≡ bytes.old.items ++ request_bytes (Reply (password_text password))) }
{
    let mut digits = [0; 16];
    let _fits = hex::encode_to_slice(password.to_be_bytes(), &mut digits);
    pen.put(bytes, &Request::Reply { text: &digits })
}

/// Appends an EXPORT of the least record.
fn put_export(pen: &mut Pen, bytes: &mut Vec<u8>) -> Result<(), AllocError>
    ensures { OnOk result (bytes.new.items ≡ bytes.old.items ++ request_bytes (Export least_record)) }
{
    let least = State {
        terminal: b"",
        unread: b"",
        lines: 0,
        bytes: 0,
    };
    let mut record = [0; STATE_MAX];
    let len = write_state(&least, &mut record);
    let state = &record[..len];
    pen.put(bytes, &Request::Export { state })
}
