//! Responses of RFC 2243.

ghost use Rattle.std.specs.Prelude.{◌≡◌, ◌∷◌, [], IfOk, IfSome, List, Result, Some, None, ℕ};
ghost use Rattle.otp_extended.specs.declared.response.Response.{Response};
ghost use Rattle.trouble.specs.declared.response.ResponseFault.{ResponseFault};
ghost use Rattle.otp_extended.specs.Parts.{parts_of};
ghost use Rattle.otp_extended.specs.Renewals.{IsSequenced};
ghost use Rattle.otp_extended.specs.Responses.{IsInit, IsInitOf, IsPlain, IsPlainOf, IsReading, Spells, kind_of};

use crate::cutting::cut_at_colon;
use crate::params::read_params;
use otp_hash::{Algo, Seed};
use otp_words::{Dictionary, candidates};
use trouble::ResponseFault;

/// A response of RFC 2243.
#[derive(Clone, Copy, PartialEq, Eq)]
pub enum Response {
    /// `hex:` or `word:` and a password.
    Plain {
        current: u64,
    },
    /// `init-hex:` or `init-word:`, a password, and the parameters and the first password of a new
    /// chain.
    Init {
        /// The next password of the old chain; its first byte is the most significant.
        current: u64,
        /// The algorithm of the new chain.
        algo: Algo,
        /// The number of the new password in its chain, 1 to 9,999.
        sequence: u16,
        /// The seed of the new chain, in lower case.
        seed: Seed,
        /// The new password; its first byte is the most significant.
        password: u64,
    },
}

/// How the passwords of a response are spelled.
#[derive(Clone, Copy)]
pub(crate) enum Form {
    Hexadecimal,
    Words,
}

/// What the first word of a response says.
#[derive(Clone, Copy)]
pub(crate) enum Kind {
    Plain(Form),
    Init(Form),
}

/// The three parts of a response that begins a new chain.
#[derive(Clone, Copy)]
struct InitParts<'a> {
    current: &'a [u8],
    params: &'a [u8],
    new: &'a [u8],
}

/// Reads a response (RFC 2243, section 2.1): `hex:` or `word:` and a password, or `init-hex:` or
/// `init-word:` and a password, the parameters of a new chain and its first password, with colons
/// between. The word before the first colon is read in any letter case. Passwords are 16 hexadecimal
/// digits with spaces and tabs anywhere in the hex forms, and six words of the dictionary in any
/// letter case in the word forms. Parameters are `md5` or `sha1`, one to four digits from 1 to 9,999,
/// and 1 to 16 ASCII letters and digits, parted by one or more spaces or tabs.
///
/// # Errors
///
/// The first fault of the text, in the order of `ResponseFault`.
pub fn read_response(dictionary: &Dictionary, text: &[u8]) -> Result<Response, ResponseFault>
    ensures reading { IsReading dictionary.now (parts_of text.now) result }
    ensures only { (answer : Result Response ResponseFault) →
        IsReading dictionary.now (parts_of text.now) answer → result ≡ answer }
    ensures sequenced { IfOk result IsSequenced }
{
    let Some(word) = cut_at_colon(text) else {
        return Err(ResponseFault::Kind);
    };
    match kind_of(word.front) {
        None => Err(ResponseFault::Kind),
        Some(Kind::Plain(form)) => read_plain(dictionary, form, word.rest),
        Some(Kind::Init(form)) => read_init(dictionary, form, word.rest),
    }
}

/// The kind that a word names, in any letter case.
#[tactic(auto, unfolding(crate::specs::Responses::kind_of))]
fn kind_of(word: &[u8]) -> Option<Kind>
    ensures { result ≡ kind_of word.now }
{
    if word.eq_ignore_ascii_case(b"hex") {
        Some(Kind::Plain(Form::Hexadecimal))
    } else if word.eq_ignore_ascii_case(b"word") {
        Some(Kind::Plain(Form::Words))
    } else if word.eq_ignore_ascii_case(b"init-hex") {
        Some(Kind::Init(Form::Hexadecimal))
    } else if word.eq_ignore_ascii_case(b"init-word") {
        Some(Kind::Init(Form::Words))
    } else {
        None
    }
}

/// Reads what stands after the word of a response with one part.
fn read_plain(dictionary: &Dictionary, form: Form, text: &[u8]) -> Result<Response, ResponseFault>
    ensures plain { IsPlain dictionary.now form (parts_of text.now) result }
    ensures only { (answer : Result Response ResponseFault) →
        IsPlain dictionary.now form (parts_of text.now) answer → result ≡ answer }
    ensures sequenced { IfOk result IsSequenced }
{
    match cut_at_colon(text) {
        Some(_) => Err(ResponseFault::Parts),
        None => plain_of(dictionary, form, text),
    }
}

/// The response whose one part is a password.
fn plain_of(dictionary: &Dictionary, form: Form, text: &[u8]) -> Result<Response, ResponseFault>
    ensures plain { IsPlainOf dictionary.now form text.now result }
    ensures only { (answer : Result Response ResponseFault) →
        IsPlainOf dictionary.now form text.now answer → result ≡ answer }
    ensures sequenced { IfOk result IsSequenced }
{
    match password_of(dictionary, form, text) {
        None => Err(ResponseFault::Current),
        Some(current) => Ok(Response::Plain { current }),
    }
}

/// Reads what stands after the word of a response with three parts.
fn read_init(dictionary: &Dictionary, form: Form, text: &[u8]) -> Result<Response, ResponseFault>
    ensures init { IsInit dictionary.now form (parts_of text.now) result }
    ensures only { (answer : Result Response ResponseFault) →
        IsInit dictionary.now form (parts_of text.now) answer → result ≡ answer }
    ensures sequenced { IfOk result IsSequenced }
{
    match init_parts(text) {
        None => Err(ResponseFault::Parts),
        Some(parts) => init_of(dictionary, form, parts),
    }
}

/// The three parts of a text.
fn init_parts(text: &[u8]) -> Option<InitParts<'_>>
    ensures parts { IfSome result (λ p. parts_of text.now ≡ p.current.now ∷ p.params.now ∷ p.new.now ∷ []) }
    ensures only { (current params new : List ℕ) → parts_of text.now ≡ current ∷ params ∷ new ∷ [] → result ≡ None → ⊥ }
{
    let Some(current) = cut_at_colon(text) else {
        return None;
    };
    let Some(params) = cut_at_colon(current.rest) else {
        return None;
    };
    match cut_at_colon(params.rest) {
        Some(_) => None,
        None => Some(InitParts {
            current: current.front,
            params: params.front,
            new: params.rest,
        }),
    }
}

/// The response of three parts.
fn init_of(
    dictionary: &Dictionary,
    form: Form,
    parts: InitParts<'_>,
) -> Result<Response, ResponseFault>
    ensures init { IsInitOf dictionary.now form parts.entry.current.now parts.entry.params.now
        parts.entry.new.now result }
    ensures only { (answer : Result Response ResponseFault) →
        IsInitOf dictionary.now form parts.entry.current.now parts.entry.params.now parts.entry.new.now answer
        → result ≡ answer }
    ensures sequenced { IfOk result IsSequenced }
{
    let Some(current) = password_of(dictionary, form, parts.current) else {
        return Err(ResponseFault::Current);
    };
    let Some(params) = read_params(parts.params) else {
        return Err(ResponseFault::Params);
    };
    let Some(password) = password_of(dictionary, form, parts.new) else {
        return Err(ResponseFault::New);
    };
    Ok(Response::Init {
        current,
        algo: params.algo,
        sequence: params.sequence,
        seed: params.seed,
        password,
    })
}

/// The password that a text spells in a form.
fn password_of(dictionary: &Dictionary, form: Form, text: &[u8]) -> Option<u64>
    ensures found { IfSome result (Spells dictionary.now form text.now) }
    ensures only { (password : ℕ) → Spells dictionary.now form text.now password → result ≡ Some password }
{
    let readings = candidates(dictionary, text);
    match form {
        Form::Hexadecimal => readings.hex,
        Form::Words => readings.words,
    }
}
