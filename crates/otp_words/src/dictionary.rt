//! Dictionaries of 2,048 words.

ghost use Rattle.std.specs.Prelude.{◌≡◌, ℕ, ◌<◌, ◌≤◌, [], ◌∷◌, ◌++◌, Some, IfSome, IfOk, OnOk, is_some, true, false};
ghost use Rattle.std.specs.Prelude.{length, map, not, nat_le, ◌==◌, ◌&&◌, slice_get};
ghost use Rattle.std.specs.BTreeMap.{get};
ghost use Rattle.std.specs.Ordering.{nat_cmp};
ghost use Rattle.std.specs.Str.Lines.{lines, strip_carriage_return};
ghost use Rattle.fixed_list.specs.FixedList.{list_of};
ghost use Rattle.otp_words.specs.declared.fault.DictRule.{DictRule};
ghost use Rattle.otp_words.specs.declared.fault.DictFault.{DictFault};
ghost use Rattle.otp_words.specs.declared.fault.DictError.TheVariants.{Refused};
ghost use Rattle.otp_words.specs.Lists.{rule_of, fault_at, dictionary_of};
ghost use Rattle.otp_words.specs.Inner.{IsPlaced, AreWords};
ghost use Rattle.std.specs.Char.{is_ascii_alphabetic};
ghost use Rattle.std.specs.List.{list_all, prefix_len};
ghost use Rattle.std.specs.Str.{str_to_ascii_uppercase};
ghost use Rattle.otp_words.specs.Digits.{number_of};
ghost use Rattle.otp_words.specs.Dictionaries.{is_word, plain_word, plain_words, IsDictionary};

use crate::fault::{DictError, DictFault, DictRule};
use fixed_list::FixedList;
use std::alloc::{AllocError, Global};
use std::collections::BTreeMap;
use std::marker::Model;

/// The most letters of a word.
const WORD_MAX: usize = 4;

/// The number of words of a dictionary.
const WORDS: usize = 2_048;

/// A list of 2,048 different words of 1 to 4 upper-case letters.
#[derive(Drop)]
pub struct Dictionary {
    words: Vec<FixedList<4>>,
    places: BTreeMap<u32, usize>,
}

impl Model for Dictionary {
    ghost use Rattle.std.specs.Prelude.{ℕ, List, map, ◌≡◌};
    ghost use Rattle.std.specs.BTreeMap.{get};
    ghost use Rattle.std.specs.Ordering.{nat_cmp};
    ghost use Rattle.fixed_list.specs.FixedList.{list_of};
    ghost use Rattle.otp_words.specs.Dictionaries.{IsDictionary};
    ghost use Rattle.otp_words.specs.Inner.{IsPlaced};

    ghost Value = { List (List ℕ) };

    ghost view = { λ d. map list_of d.words.items };

    ghost invariant = { λ d. IsPlaced (map list_of d.words.items) (get nat_cmp d.places)
        × IsDictionary (map list_of d.words.items) };
}

impl Dictionary {
    /// Reads a word list: 2,048 lines of 1 to 4 ASCII letters of any case, all different without
    /// regard to case. A line ends with a newline, or a carriage return and a newline; the last
    /// line may lack its end. What is refused is refused by its first fault.
    pub fn read(alloc: Global, text: &[u8]) -> Result<Dictionary, DictError>
        ensures read { IfOk result (λ d. dictionary_of text.now ≡ Ok d) }
        ensures refused { (fault : DictFault) → result ≡ Err (Refused fault) → dictionary_of text.now ≡ Err fault }
    {
        let mut words = Vec::new(alloc);
        let mut places = BTreeMap::new(alloc);
        let mut rest = text;
        while !rest.is_empty() {
            let (line, after) = next_line(rest);
            if let Some(rule) = add(&mut words, &mut places, line)? {
                return Err(refused(words.len() + 1, rule));
            }
            rest = after;
        }
        if words.len() != WORDS {
            return Err(refused(words.len(), DictRule::Count));
        }
        Ok(Dictionary { words, places })
    }

    /// The plain word list: word `i` is `Q` followed by the three hexadecimal digits of `i`, written
    /// with `A` for 0 to `P` for 15.
    pub fn plain(alloc: Global) -> Result<Dictionary, AllocError>
        ensures { IfOk result (λ d. d ≡ plain_words) }
    {
        let mut words = Vec::new(alloc);
        let mut places = BTreeMap::new(alloc);
        for place in 0..WORDS {
            place_word(&mut words, &mut places, &plain_word(place))?;
        }
        Ok(Dictionary { words, places })
    }

    /// The place of a word in any letter case, if it is in the list.
    pub fn place(&self, word: &[u8]) -> Option<usize>
        ensures found { IfSome result (λ i. slice_get self.now i ≡ Some (str_to_ascii_uppercase word.now)) }
        ensures only { (i : ℕ) → slice_get self.now i ≡ Some (str_to_ascii_uppercase word.now) → result ≡ Some i }
        ensures legal { IsDictionary self.now }
    {
        let places = &self.places;
        if !is_word(word) {
            return None;
        }
        places.get(&packed(word)).copied()
    }

    /// The word at a place.
    pub fn word(&self, place: usize) -> &[u8]
        requires { place < 2048 }
        ensures word { slice_get self.now place ≡ Some result.now }
        ensures len { length result.now ≤ 4 }
        ensures legal { IsDictionary self.now }
    {
        self.words[place].as_slice()
    }
}

/// The refusal of a list by the line of a number.
fn refused(number: usize, rule: DictRule) -> DictError
    ensures { result ≡ Refused (fault_at number rule) }
{
    let line = if number < 4_294_967_295 {
        number as u32
    } else {
        u32::MAX
    };
    DictError::Refused(DictFault { line, rule })
}

/// Adds the word of a line, or gives the rule that it breaks.
fn add(
    words: &mut Vec<FixedList<4>>,
    places: &mut BTreeMap<u32, usize>,
    line: &[u8],
) -> Result<Option<DictRule>, AllocError>
    requires placed { IsPlaced (map list_of words.old.items) (get nat_cmp places.old) }
    requires legal { AreWords (map list_of words.old.items) }
    ensures rule { IfOk result (λ r. r ≡ rule_of (map list_of words.old.items) line.now) }
    ensures kept { (rule : DictRule) → result ≡ Ok (Some rule) → words.new.items ≡ words.old.items }
    ensures added { result ≡ Ok None → map list_of words.new.items ≡ map list_of words.old.items
        ++ str_to_ascii_uppercase line.now ∷ [] }
    ensures placed { result ≡ Ok None → IsPlaced (map list_of words.new.items) (get nat_cmp places.new) }
    ensures legal { result ≡ Ok None → AreWords (map list_of words.new.items) }
{
    if !has_word_length(line) {
        return Ok(Some(DictRule::Length));
    }
    if !are_letters(line) {
        return Ok(Some(DictRule::Letter));
    }
    let number = packed(line);
    if places.contains_key(&number) {
        return Ok(Some(DictRule::Twice));
    }
    place_word(words, places, line)?;
    Ok(None)
}

/// Adds a word that is new.
fn place_word(
    words: &mut Vec<FixedList<4>>,
    places: &mut BTreeMap<u32, usize>,
    word: &[u8],
) -> Result<(), AllocError>
    requires placed { IsPlaced (map list_of words.old.items) (get nat_cmp places.old) }
    requires legal { AreWords (map list_of words.old.items) }
    requires word { is_word (str_to_ascii_uppercase word.now) ≡ true }
    requires short { length word.now ≤ 4 }
    requires new { is_some (get nat_cmp places.old (number_of 8 (str_to_ascii_uppercase word.now))) ≡ false }
    ensures added { OnOk result (map list_of words.new.items ≡ map list_of words.old.items ++ str_to_ascii_uppercase
        word.now ∷ []) }
    ensures placed { OnOk result (IsPlaced (map list_of words.new.items) (get nat_cmp places.new)) }
    ensures legal { OnOk result (AreWords (map list_of words.new.items)) }
{
    let place = words.len();
    places.insert(packed(word), place)?;
    words.push(in_upper_case(word))?;
    Ok(())
}

/// The word of the plain list at a place.
fn plain_word(place: usize) -> [u8; 4]
    requires { place < 2048 }
    ensures { result ≡ plain_word place }
{
    [
        b'Q',
        b'A' + (place / 256) as u8,
        b'A' + (place / 16 % 16) as u8,
        b'A' + (place % 16) as u8,
    ]
}

/// A word in upper case.
fn in_upper_case(line: &[u8]) -> FixedList<4>
    requires { length line.now ≤ 4 }
    ensures { list_of result ≡ str_to_ascii_uppercase line.now }
{
    let mut word = [0; WORD_MAX];
    for (i, byte) in line.iter().enumerate() {
        word[i] = byte.to_ascii_uppercase();
    }
    FixedList::of(&word[..line.len()])
}

/// The first line of a text that is not empty, and what follows it.
fn next_line(text: &[u8]) -> (&[u8], &[u8])
    requires { 1 ≤ length text.now }
    ensures lines { lines text.now ≡ result.0.now ∷ lines result.1.now }
    ensures shorter { length result.1.now < length text.now }
{
    let (line, rest) = text.split_at(line_len(text));
    match rest {
        [] => (line, rest),
        [_, rest @ ..] => (without_return(line), rest),
    }
}

/// A line without the carriage return at its end, if it has one.
fn without_return(line: &[u8]) -> &[u8]
    ensures { result.now ≡ strip_carriage_return line.now }
{
    match line {
        [front @ .., b'\r'] => front,
        _ => line,
    }
}

/// The number of bytes before the first newline.
fn line_len(text: &[u8]) -> usize
    ensures { result ≡ prefix_len (λ b. not (b == 10)) text.now }
{
    text.iter().take_while(|byte| **byte != b'\n').count()
}

/// Whether bytes are 1 to 4 ASCII letters of any case.
fn is_word(bytes: &[u8]) -> bool
    ensures { result ≡ (nat_le 1 (length bytes.now) && nat_le (length bytes.now) 4
        && list_all is_ascii_alphabetic bytes.now) }
{
    has_word_length(bytes) && are_letters(bytes)
}

/// Whether bytes are 1 to 4.
fn has_word_length(bytes: &[u8]) -> bool
    ensures { result ≡ (nat_le 1 (length bytes.now) && nat_le (length bytes.now) 4) }
{
    !bytes.is_empty() && bytes.len() <= WORD_MAX
}

/// Whether all bytes are ASCII letters.
fn are_letters(bytes: &[u8]) -> bool
    ensures { result ≡ list_all is_ascii_alphabetic bytes.now }
{
    bytes.iter().all(|byte| byte.is_ascii_alphabetic())
}

/// A word in upper case as a number, eight bits a letter.
fn packed(word: &[u8]) -> u32
    requires { length word.now ≤ 4 }
    ensures { result ≡ number_of 8 (str_to_ascii_uppercase word.now) }
{
    let mut number = 0;
    for byte in word {
        number = number * 256 + u32::from(byte.to_ascii_uppercase());
    }
    number
}
