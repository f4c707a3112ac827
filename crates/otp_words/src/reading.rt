//! Both readings of a reply.

ghost use Rattle.otp_words.specs.Candidates.{AreCandidatesOf};

use crate::dictionary::Dictionary;
use crate::hexadecimal::hex_reading;
use crate::spellings::Candidates;
use crate::words::words_reading;

/// The passwords that a text spells.
pub fn candidates(dictionary: &Dictionary, text: &[u8]) -> Candidates
    ensures { AreCandidatesOf dictionary.now text.now result.words result.hex }
{
    Candidates {
        words: words_reading(dictionary, text),
        hex: hex_reading(text),
    }
}
