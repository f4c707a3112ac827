//! What a part is read as.

ghost use Rattle.std.specs.Prelude.{◌≡◌, ◌^◌, ◌<◌, ◌≤◌, ◌==◌, MatchOption, Some, length, take};
ghost use Rattle.std.specs.Int.{w64, from_be_bytes};
ghost use Rattle.std.specs.Str.{bytes_eq};
ghost use Rattle.hex.specs.Hex.{encode_lower};
ghost use Rattle.request_catalogue.specs.Texts.{is_label, is_note};
ghost use Rattle.request_catalogue.specs.TextBytes.{label_bytes, name_bytes, note_bytes};
ghost use Rattle.decision_log.specs.Parts.{Gives, IsNoHex, hex_in, hex_of, lettered, name_in, number_below};
ghost use Rattle.decision_log.specs.Parts.{password_in, rule_in};

use crate::logged::LineFault;
use request_catalogue::{Label, Name, Note};
use text_line::{Line, long_of, put_hex};

/// A number of 64 bits.
pub(crate) fn u64_in(bytes: &[u8]) -> Result<u64, LineFault>
    ensures { Gives (λ n. n) result (number_below (2 ^ 64) bytes.now) }
{
    match long_of(bytes) {
        Some(number) => Ok(number),
        None => Err(LineFault::Number),
    }
}

/// A number of 32 bits.
pub(crate) fn u32_in(bytes: &[u8]) -> Result<u32, LineFault>
    ensures { Gives (λ n. n) result (number_below (2 ^ 32) bytes.now) }
{
    match long_of(bytes) {
        Some(number) if number < 1 << 32 => Ok(number as u32),
        _ => Err(LineFault::Number),
    }
}

/// A number of 16 bits.
pub(crate) fn u16_in(bytes: &[u8]) -> Result<u16, LineFault>
    ensures { Gives (λ n. n) result (number_below (2 ^ 16) bytes.now) }
{
    match long_of(bytes) {
        Some(number) if number < 1 << 16 => Ok(number as u16),
        _ => Err(LineFault::Number),
    }
}

/// A number of 8 bits.
pub(crate) fn u8_in(bytes: &[u8]) -> Result<u8, LineFault>
    ensures { Gives (λ n. n) result (number_below (2 ^ 8) bytes.now) }
{
    match long_of(bytes) {
        Some(number) if number < 1 << 8 => Ok(number as u8),
        _ => Err(LineFault::Number),
    }
}

/// A letter and a number of 32 bits.
pub(crate) fn lettered(letter: u8, bytes: &[u8]) -> Result<u32, LineFault>
    ensures { Gives (λ n. n) result (lettered letter bytes.now) }
{
    match bytes {
        [first, digits @ ..] if *first == letter => u32_in(digits),
        _ => Err(LineFault::Word),
    }
}

/// A rule of low to high.
pub(crate) fn rule_in(low: u8, high: u8, bytes: &[u8]) -> Result<u8, LineFault>
    ensures { Gives (λ n. n) result (rule_in low high bytes.now) }
{
    let rule = u8_in(bytes)?;
    if low <= rule && rule <= high {
        Ok(rule)
    } else {
        Err(LineFault::Rule)
    }
}

/// A user's name.
pub(crate) fn name_in(bytes: &[u8]) -> Result<Name, LineFault>
    ensures { Gives name_bytes result (name_in bytes.now) }
{
    match Name::of(bytes) {
        Some(name) => Ok(name),
        None => Err(LineFault::Word),
    }
}

/// The most bytes that a part spells in hexadecimal digits.
const HEX_MAX: usize = 64;

/// Puts the bytes that the digits spell, where they are lower-case, even in number and at most 128,
/// to the front of the room, and says how many they are.
fn hex_into(digits: &[u8], room: &mut [u8]) -> Option<usize>
    requires { length room.old ≡ HEX_MAX }
    ensures told { MatchOption result (IsNoHex digits.now) (λ n. (n ≤ HEX_MAX)
        × (hex_of digits.now ≡ Some (take n room.new))) }
    ensures len { length room.new ≡ HEX_MAX }
{
    let len = digits.len() / 2;
    if digits.len() % 2 == 1 || len > HEX_MAX {
        return None;
    }
    match hex::decode_to_slice(digits, &mut room[..len]) {
        Ok(()) => is_lower(&room[..len], digits).then_some(len),
        Err(_) => None,
    }
}

/// Whether the digits are the bytes' in lower case.
fn is_lower(bytes: &[u8], digits: &[u8]) -> bool
    requires { length bytes.now ≤ HEX_MAX }
    ensures { result ≡ bytes_eq (encode_lower bytes.now) digits.now }
{
    let mut again = Line::new();
    put_hex(&mut again, bytes);
    again.as_slice() == digits
}

/// A file's label in hexadecimal digits.
pub(crate) fn label_in(digits: &[u8]) -> Result<Label, LineFault>
    ensures { Gives label_bytes result (hex_in is_label digits.now) }
{
    let mut room = [0; HEX_MAX];
    match hex_into(digits, &mut room) {
        Some(len) => Label::of(&room[..len]).ok_or(LineFault::Hex),
        None => Err(LineFault::Hex),
    }
}

/// A note in hexadecimal digits.
pub(crate) fn note_in(digits: &[u8]) -> Result<Note, LineFault>
    ensures { Gives note_bytes result (hex_in is_note digits.now) }
{
    let mut room = [0; HEX_MAX];
    match hex_into(digits, &mut room) {
        Some(len) => Note::of(&room[..len]).ok_or(LineFault::Hex),
        None => Err(LineFault::Hex),
    }
}

/// A password in 16 hexadecimal digits, the most significant first.
pub(crate) fn password_in(digits: &[u8]) -> Result<u64, LineFault>
    ensures { Gives (λ n. n) result (password_in digits.now) }
{
    let mut room = [0; HEX_MAX];
    match hex_into(digits, &mut room) {
        Some(8) => Ok(password_of(&room[..8])),
        _ => Err(LineFault::Hex),
    }
}

/// The password of eight bytes.
fn password_of(bytes: &[u8]) -> u64
    requires { length bytes.now ≡ 8 }
    ensures { result ≡ from_be_bytes w64 bytes.now }
{
    let mut password = [0; 8];
    password.copy_from_slice(bytes);
    u64::from_be_bytes(password)
}
