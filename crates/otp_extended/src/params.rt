//! The parameters of a new chain.

ghost use Rattle.std.specs.Prelude.{◌≡◌, ◌≤◌, IfSome, List, Some, ℕ};
ghost use Rattle.std.specs.Option.{IsSomeAnd};
ghost use Rattle.otp_hash.specs.declared.chain.Algo.{Algo};
ghost use Rattle.otp_hash.specs.SeedBytes.{seed_bytes};
ghost use Rattle.otp_words.specs.Challenges.{IsNumber};
ghost use Rattle.otp_extended.specs.Responses.{AreParams};
ghost use Rattle.otp_extended.specs.Inner.{AreWords, AreWordsOf, HasParams};

use crate::cutting::cut_at_blanks;
use otp_hash::{Algo, Seed, algo_named};
use otp_words::read_number;

/// The parameters of a new chain.
#[derive(Clone, Copy)]
pub(crate) struct Params {
    pub(crate) algo: Algo,
    /// The number of the password in its chain, 1 to 9,999.
    pub(crate) sequence: u16,
    pub(crate) seed: Seed,
}

/// Reads parameters: `md5` or `sha1`, a number of one to four digits from 1 to 9,999, and a seed of 1
/// to 16 ASCII letters and digits, parted by one or more spaces or tabs. `None` exactly where the text
/// is no such parameters.
pub(crate) fn read_params(text: &[u8]) -> Option<Params>
    ensures found { IfSome result (λ p. AreParams text.now p.algo p.sequence (seed_bytes p.seed)) }
    ensures only { (algo : Algo) (sequence : ℕ) (seed : List ℕ) → AreParams text.now algo sequence seed →
        IsSomeAnd result (HasParams algo sequence seed) }
    ensures within { IfSome result (λ p. p.sequence ≤ 9999) }
{
    let Some(word) = cut_at_blanks(text) else {
        return None;
    };
    let Some(digits) = cut_at_blanks(word.rest) else {
        return None;
    };
    params_of(word.front, digits.front, digits.rest)
}

/// The parameters of three words.
fn params_of(word: &[u8], digits: &[u8], name: &[u8]) -> Option<Params>
    ensures found { IfSome result (AreWordsOf word.now digits.now name.now) }
    ensures only { (algo : Algo) (sequence : ℕ) (seed : List ℕ) →
        AreWords word.now digits.now name.now algo sequence seed → IsSomeAnd result (HasParams algo sequence seed) }
    ensures within { IfSome result (λ p. p.sequence ≤ 9999) }
{
    let Some(algo) = algo_named(word) else {
        return None;
    };
    let Some(sequence) = sequence_of(digits) else {
        return None;
    };
    let Some(seed) = Seed::of(name) else {
        return None;
    };
    Some(Params {
        algo,
        sequence,
        seed,
    })
}

/// The number of one to four digits, where it is 1 to 9,999.
fn sequence_of(digits: &[u8]) -> Option<u16>
    ensures found { IfSome result (λ n. IsNumber digits.now n × (1 ≤ n)) }
    ensures only { (n : ℕ) → IsNumber digits.now n → 1 ≤ n → result ≡ Some n }
    ensures within { IfSome result (λ n. n ≤ 9999) }
{
    read_number(digits).filter(|number| *number != 0)
}
