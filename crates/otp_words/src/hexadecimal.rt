//! Passwords in hexadecimal digits.

ghost use Rattle.std.specs.Prelude.{◌≡◌, ◌≢◌, ◌≤◌, ◌<◌, ◌++◌, Some, MatchOption, length, take, drop, map, filter};
ghost use Rattle.std.specs.Char.{to_ascii_uppercase};
ghost use Rattle.otp_words.specs.Blanks.{is_no_blank};
ghost use Rattle.otp_words.specs.Hex.{hex_digits, hex_text, hex_reading};
ghost use Rattle.otp_words.specs.Inner.{grouped};

use crate::blanks::is_blank;
use hex::FromHex;

/// The length of a password in four groups of four digits.
const HEX_TEXT: usize = 19;

/// The number of hexadecimal digits of a password.
const HEX_DIGITS: usize = 16;

/// Writes a password to the front of `out` as four groups of four upper-case digits with a space
/// between, and gives the length, 19. What is written is read as the password.
pub fn to_hex(password: u64, out: &mut [u8]) -> usize
    requires { 19 ≤ length out.old }
    ensures len { result ≡ 19 }
    ensures written { out.new ≡ hex_text password ++ drop 19 out.old }
    ensures read_back { hex_reading (take result out.new) ≡ Some password }
{
    out[..HEX_TEXT].copy_from_slice(&hex_text(password));
    HEX_TEXT
}

/// A password in groups of digits.
fn hex_text(password: u64) -> [u8; 19]
    ensures { result ≡ hex_text password }
{
    let digits = hex_digits(password);
    let mut text = [0; HEX_TEXT];
    for k in 0..HEX_TEXT {
        text[k] = grouped(&digits, k);
    }
    text
}

/// The byte at a place of digits in groups: a space after each four digits.
fn grouped(digits: &[u8; 16], place: usize) -> u8
    requires { place < 19 }
    ensures { result ≡ grouped digits.now place }
{
    if place % 5 == 4 {
        b' '
    } else {
        digits[place - place / 5]
    }
}

/// The digits of a password in upper case. They are written in lower case first, where two digits a
/// byte have room.
fn hex_digits(password: u64) -> [u8; 16]
    ensures { result ≡ hex_digits password }
{
    let mut digits = [0; HEX_DIGITS];
    let _ = hex::encode_to_slice(password.to_be_bytes(), &mut digits);
    upper_digits(&digits)
}

/// Digits in upper case.
fn upper_digits(digits: &[u8; 16]) -> [u8; 16]
    ensures { result ≡ map to_ascii_uppercase digits.now }
{
    let mut upper = [0; HEX_DIGITS];
    for (i, digit) in digits.iter().enumerate() {
        upper[i] = digit.to_ascii_uppercase();
    }
    upper
}

/// The password that a text spells in hexadecimal: where 16 digits and nothing else remain once all
/// spaces and tabs are dropped.
pub fn hex_reading(text: &[u8]) -> Option<u64>
    ensures { result ≡ hex_reading text.now }
{
    let digits = without_blanks(text)?;
    let bytes = <[u8; 8] as FromHex>::from_hex(digits).ok()?;
    Some(u64::from_be_bytes(bytes))
}

/// A text without its spaces and tabs, where 16 bytes are left.
fn without_blanks(text: &[u8]) -> Option<[u8; 16]>
    ensures { MatchOption result (length (filter is_no_blank text.now) ≢ 16) (λ d. d ≡ filter is_no_blank text.now) }
{
    let mut digits = [0; HEX_DIGITS];
    let mut count = 0;
    for byte in text {
        if is_blank(*byte) {
            continue;
        }
        if count == HEX_DIGITS {
            return None;
        }
        digits[count] = *byte;
        count += 1;
    }
    (count == HEX_DIGITS).then_some(digits)
}
