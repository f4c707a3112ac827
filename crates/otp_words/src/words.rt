//! Passwords in six words of a dictionary.

ghost use Rattle.std.specs.Prelude.{◌≡◌, ℕ, ◌+◌, ◌-◌, ◌*◌, ◌^◌, ◌<◌, ◌≤◌, ◌++◌, List, Some, IfSome, length, take, drop};
ghost use Rattle.std.specs.Prelude.{fold};
ghost use Rattle.otp_words.specs.Digits.{digits_of, number_of};
ghost use Rattle.otp_words.specs.Dictionaries.{IsDictionary};
ghost use Rattle.otp_words.specs.Words.{check_bits, checked, spaced, words_at, words_text, IsWords, IsSixWords};

use crate::blanks::{gap_len, word_len};
use crate::dictionary::Dictionary;
use crate::digits::digit;

/// The number of words of a password.
const WORDS: u32 = 6;

/// The number of bits that a word stands for.
const WORD_BITS: u32 = 11;

/// The two low bits of the sum of a password's 32 pairs of bits.
#[tactic(auto, unfolding(crate::specs::Words::check_bits))]
fn check_bits(password: u64) -> usize
    ensures value { result ≡ check_bits password }
    ensures below { result < 4 }
{
    let mut sum = 0;
    for place in 0..32 {
        sum += digit(u128::from(password), 2, place);
    }
    sum % 4
}

/// A password and after it its check bits.
fn checked(password: u64) -> u128
    ensures value { result ≡ checked password }
    ensures below { result < 2 ^ 66 }
{
    u128::from(password) * 4 + check_bits(password) as u128
}

/// The password that a text spells in six words of the dictionary, in any letter case, parted by
/// spaces and tabs, with right check bits.
pub fn words_reading(dictionary: &Dictionary, text: &[u8]) -> Option<u64>
    ensures found { IfSome result (IsSixWords dictionary.now text.now) }
    ensures only { (password : ℕ) → password < 2 ^ 64 → IsSixWords dictionary.now text.now password
        → result ≡ Some password }
{
    let number = number_behind(dictionary, text, WORDS, 0)?;
    let password = (number / 4) as u64;
    (checked(password) == number).then_some(password)
}

/// Writes a password to the front of `out` as six words with a space between, and gives their
/// length, at most 29. What is written is read as the password.
pub fn to_words(dictionary: &Dictionary, password: u64, out: &mut [u8]) -> usize
    requires { 29 ≤ length out.old }
    ensures len { result ≡ length (words_text dictionary.now password) }
    ensures within { result ≤ 29 }
    ensures written { out.new ≡ words_text dictionary.now password ++ drop result out.old }
    ensures read_back { IsSixWords dictionary.now (take result out.new) password }
{
    put_words(dictionary, checked(password), WORDS, out)
}

/// Writes the last `count` words of a number with a space between, and gives their length.
fn put_words(dictionary: &Dictionary, number: u128, count: u32, out: &mut [u8]) -> usize
    requires some { 1 ≤ count }
    requires few { count ≤ 6 }
    requires room { 5 * count ≤ length out.old + 1 }
    ensures len { result ≡ length (spaced (words_at dictionary.now (digits_of 11 count number))) }
    ensures within { result + 1 ≤ 5 * count }
    ensures written { out.new ≡ spaced (words_at dictionary.now (digits_of 11 count number)) ++ drop result out.old }
    ensures legal { IsDictionary dictionary.now }
{
    let word = dictionary.word(digit(number, WORD_BITS, count - 1));
    let end = word.len();
    out[..end].copy_from_slice(word);
    if count == 1 {
        return end;
    }
    out[end] = b' ';
    end + 1 + put_words(dictionary, number, count - 1, &mut out[end + 1..])
}

/// The number whose last `count` words a text spells, after the words that `front` stands for.
fn number_behind(dictionary: &Dictionary, text: &[u8], count: u32, front: u128) -> Option<u128>
    requires some { 1 ≤ count }
    requires few { count ≤ 6 }
    requires small { front < 2 ^ (11 * (6 - count)) }
    ensures found { IfSome result (λ n. (places : List ℕ) × (length places ≡ count)
        × IsWords dictionary.now places text.now × (n ≡ fold (λ number digit. number * 2 ^ 11 + digit) front places)) }
    ensures only { (places : List ℕ) → length places ≡ count → IsWords dictionary.now places text.now
        → result ≡ Some (fold (λ number digit. number * 2 ^ 11 + digit) front places) }
    ensures small { IfSome result (λ n. n < 2 ^ 66) }
{
    let (word, rest) = text.split_at(word_len(text));
    let number = front * 2048 + dictionary.place(word)? as u128;
    if count == 1 {
        return rest.is_empty().then_some(number);
    }
    let (gap, rest) = rest.split_at(gap_len(rest));
    if gap.is_empty() {
        return None;
    }
    number_behind(dictionary, rest, count - 1, number)
}
