//! Seeds, which stand before the phrase in the first hash of a chain.

ghost use Rattle.std.specs.Prelude.{◌≡◌, ◌≤◌, true, IfSome, is_some, length, map};
ghost use Rattle.std.specs.Char.{is_ascii_alphanumeric, to_ascii_lowercase};
ghost use Rattle.std.specs.List.{list_all};
ghost use Rattle.fixed_list.specs.FixedList.{list_of};
ghost use Rattle.otp_hash.specs.Seeds.{is_seed_text, is_seed};

use fixed_list::FixedList;

/// The most bytes that a seed has.
const SEED_MAX: usize = 16;

/// A seed: 1 to 16 lower-case ASCII letters and digits (RFC 2289, section 6.0).
#[derive(Clone, Copy, PartialEq, Eq)]
pub struct Seed {
    text: FixedList<16>,
    ghost legal: { is_seed (list_of text) ≡ true },
}

impl Seed {
    ghost use Rattle.otp_hash.specs.SeedBytes.{seed_bytes};

    /// The seed of these bytes, in lower case. `None` exactly where they are not 1 to 16 ASCII
    /// letters and digits.
    #[tactic(auto, unfolding(crate::specs::Seeds::is_seed_text, crate::specs::Seeds::is_seed))]
    pub fn of(bytes: &[u8]) -> Option<Self>
        ensures found { IfSome result (λ s. seed_bytes s ≡ map to_ascii_lowercase bytes.now) }
        ensures rule { is_some result ≡ is_seed_text bytes.now }
    {
        if !is_seed_text(bytes) {
            return None;
        }
        let mut text = [0; SEED_MAX];
        for (i, byte) in bytes.iter().enumerate() {
            text[i] = byte.to_ascii_lowercase();
        }
        Some(Seed {
            text: FixedList::of(&text[..bytes.len()]),
        })
    }

    /// The bytes of the seed.
    pub fn as_slice(&self) -> &[u8]
        ensures bytes { result.now ≡ seed_bytes self.now }
        ensures legal { is_seed result.now ≡ true }
        ensures len { length result.now ≤ 16 }
    {
        self.text.as_slice()
    }
}

/// Whether bytes are 1 to 16 ASCII letters and digits.
#[tactic(auto, unfolding(crate::specs::Seeds::is_seed_text))]
fn is_seed_text(bytes: &[u8]) -> bool
    ensures { result ≡ is_seed_text bytes.now }
{
    !bytes.is_empty() && bytes.len() <= SEED_MAX && are_alphanumeric(bytes)
}

/// Whether all bytes are ASCII letters or digits.
fn are_alphanumeric(bytes: &[u8]) -> bool
    ensures { result ≡ list_all is_ascii_alphanumeric bytes.now }
{
    bytes.iter().all(|byte| byte.is_ascii_alphanumeric())
}
