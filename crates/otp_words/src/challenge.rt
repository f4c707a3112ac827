//! The text of a challenge.

ghost use Rattle.std.specs.Prelude.{◌≡◌, ℕ, ◌≤◌, List, ◌++◌, length, drop};
ghost use Rattle.otp_hash.specs.SeedBytes.{seed_bytes};
ghost use Rattle.otp_words.specs.Challenges.{challenge_word, challenge_of, BeginsWithChallenge};
ghost use Rattle.otp_words.specs.Inner.{four_digits, leading_zeros};

use otp_hash::{Algo, Seed};
use request_catalogue::put;

/// Writes the challenge of a number and a seed to the front of `out`, as `otp-md5 99 test` and a
/// newline, and gives its length. What is written is read whole, whatever follows it.
#[tactic(auto, unfolding(crate::specs::Challenges::challenge_of))]
pub fn challenge_text(algo: Algo, n: u16, seed: &Seed, out: &mut [u8]) -> usize
    requires four_digits { n ≤ 9999 }
    requires room { 32 ≤ length out.old }
    ensures len { result ≡ length (challenge_of algo n (seed_bytes seed.now)) }
    ensures within { result ≤ 32 }
    ensures written { out.new ≡ challenge_of algo n (seed_bytes seed.now) ++ drop result out.old }
    ensures read_back { (unread : List ℕ) → BeginsWithChallenge (challenge_of algo n (seed_bytes seed.now) ++ unread)
        algo n (seed_bytes seed.now) result }
{
    let at = put(out, 0, challenge_word(algo));
    let at = put(out, at, b" ");
    let digits = four_digits(n);
    let at = put(out, at, &digits[leading_zeros(n)..]);
    let at = put(out, at, b" ");
    let at = put(out, at, seed.as_slice());
    put(out, at, b"\n")
}

/// The first word of a challenge.
pub fn challenge_word(algo: Algo) -> &'static [u8]
    ensures text { result.now ≡ challenge_word algo }
    ensures len { length result.now ≤ 8 }
{
    match algo {
        Algo::Md5 => b"otp-md5",
        Algo::Sha1 => b"otp-sha1",
    }
}

/// The four decimal digits of a number.
fn four_digits(n: u16) -> [u8; 4]
    requires { n ≤ 9999 }
    ensures { result ≡ four_digits n }
{
    [
        b'0' + (n / 1000) as u8,
        b'0' + (n / 100 % 10) as u8,
        b'0' + (n / 10 % 10) as u8,
        b'0' + (n % 10) as u8,
    ]
}

/// How many of a number's four digits are zeros before its first.
fn leading_zeros(n: u16) -> usize
    ensures zeros { result ≡ leading_zeros n }
    ensures within { result ≤ 3 }
{
    match n {
        0..=9 => 3,
        10..=99 => 2,
        100..=999 => 1,
        _ => 0,
    }
}
