//! The reading of a challenge.

ghost use Rattle.std.specs.Prelude.{◌≡◌, ℕ, ◌≤◌, List, IfOk, IfSome, IsOkAnd, Some, ◌++◌, drop, length};
ghost use Rattle.std.specs.Char.{is_ascii_digit, is_ascii_alphanumeric};
ghost use Rattle.std.specs.List.{prefix_len};
ghost use Rattle.otp_hash.specs.declared.chain.Algo.{Algo};
ghost use Rattle.otp_hash.specs.SeedBytes.{seed_bytes};
ghost use Rattle.otp_words.specs.Challenges.{challenge_word, BeginsWithChallenge};
ghost use Rattle.otp_words.specs.Readings.{HasParts};
ghost use Rattle.otp_words.specs.Inner.{ArePieces, is_closed};

use crate::blanks::gap_len;
use crate::challenge::challenge_word;
use crate::number::read_number;
use otp_hash::{Algo, Seed};

/// A challenge that was read from the front of a text.
#[derive(Clone, Copy, PartialEq, Eq)]
pub struct Challenge {
    pub algo: Algo,
    /// The number of the password that is asked for, 0 to 9,999.
    pub n: u16,
    /// The seed, in lower case.
    pub seed: Seed,
    /// The number of bytes up to and including the space or newline that closes the challenge.
    pub used: usize,
}

/// A text that begins with no challenge.
#[derive(Clone, Copy, PartialEq, Eq)]
pub struct Unreadable;

/// The pieces of a text after the first word of a challenge.
#[derive(Clone, Copy)]
struct Parts<'a> {
    gap: &'a [u8],
    digits: &'a [u8],
    second_gap: &'a [u8],
    name: &'a [u8],
    rest: &'a [u8],
}

/// Reads the challenge at the front of a text (RFC 2289, section 5.0): `otp-md5` or `otp-sha1`, one
/// to four digits and the 1 to 16 ASCII letters and digits of a seed, with spaces and tabs between,
/// and then a space or a newline. What follows is left unread. `Unreadable` exactly where the text
/// begins with no challenge.
pub fn read_challenge(text: &[u8]) -> Result<Challenge, Unreadable>
    ensures found { IfOk result (λ c. BeginsWithChallenge text.now c.algo c.n (seed_bytes c.seed) c.used) }
    ensures only { (algo : Algo) (n : ℕ) (seed : List ℕ) (used : ℕ) → BeginsWithChallenge text.now algo n seed used
        → IsOkAnd result (HasParts algo n seed used) }
{
    let algo = front_algo(text).ok_or(Unreadable)?;
    let parts = parts_of(&text[challenge_word(algo).len()..]);
    if parts.gap.is_empty() || parts.second_gap.is_empty() {
        return Err(Unreadable);
    }
    let n = read_number(parts.digits).ok_or(Unreadable)?;
    let seed = Seed::of(parts.name).ok_or(Unreadable)?;
    if !is_closed(parts.rest) {
        return Err(Unreadable);
    }
    let used = text.len() - parts.rest.len() + 1;
    Ok(Challenge {
        algo,
        n,
        seed,
        used,
    })
}

/// Whether a text begins with a space or a newline.
fn is_closed(rest: &[u8]) -> bool
    ensures { result ≡ is_closed rest.now }
{
    matches!(rest, [b' ' | b'\n', ..])
}

/// The algorithm whose word a text begins with.
fn front_algo(text: &[u8]) -> Option<Algo>
    ensures found { IfSome result (λ a. text.now ≡ challenge_word a ++ drop (length (challenge_word a)) text.now) }
    ensures only { (algo : Algo) (rest : List ℕ) → text.now ≡ challenge_word algo ++ rest → result ≡ Some algo }
{
    if text.starts_with(challenge_word(Algo::Md5)) {
        Some(Algo::Md5)
    } else if text.starts_with(challenge_word(Algo::Sha1)) {
        Some(Algo::Sha1)
    } else {
        None
    }
}

/// Cuts a text after its blanks, digits, blanks, and letters and digits.
fn parts_of(text: &[u8]) -> Parts<'_>
    ensures parts { ArePieces text.now result.gap.now result.digits.now result.second_gap.now result.name.now
        result.rest.now }
    ensures within { length result.rest.now ≤ length text.now }
{
    let (gap, rest) = text.split_at(gap_len(text));
    let (digits, rest) = rest.split_at(digits_len(rest));
    let (second_gap, rest) = rest.split_at(gap_len(rest));
    let (name, rest) = rest.split_at(name_len(rest));
    Parts {
        gap,
        digits,
        second_gap,
        name,
        rest,
    }
}

/// The number of decimal digits at the front.
fn digits_len(text: &[u8]) -> usize
    ensures { result ≡ prefix_len is_ascii_digit text.now }
{
    text.iter().take_while(|byte| byte.is_ascii_digit()).count()
}

/// The number of ASCII letters and digits at the front.
fn name_len(text: &[u8]) -> usize
    ensures { result ≡ prefix_len is_ascii_alphanumeric text.now }
{
    text.iter()
        .take_while(|byte| byte.is_ascii_alphanumeric())
        .count()
}
