//! Decoys: what a challenge names for a user that can't log in.

ghost use Rattle.std.specs.Prelude.{◌≡◌, codes, take};
ghost use Rattle.std.specs.Int.{to_be_bytes, w64};
ghost use Rattle.hex.specs.Hex.{encode_lower};
ghost use Rattle.otp_hash.specs.SeedBytes.{seed_bytes};
ghost use Rattle.policy_model.specs.Decoys.{decoy_algo, decoy_number, decoy_password, decoy_seed};
ghost use Rattle.policy_model.specs.Salt.{plain_salt};
ghost use Rattle.policy_model.specs.Verdict.{decoy_challenge};

use crate::event::Decision;
use crate::reading::DECOYS_FROM;
use crate::setup::Setup;
use otp_hash::{Algo, Seed, first};
use request_catalogue::Name;

/// What a challenge names for a user that can't log in. Nobody can reply to it.
#[derive(Clone, Copy, PartialEq, Eq)]
pub struct Decoy {
    pub algo: Algo,
    /// 0 to 999.
    pub n: u16,
    pub seed: Seed,
}

/// The salt where an operator sets none: `decoy`.
pub fn plain_salt() -> Seed
    ensures value { result ≡ plain_salt }
    ensures bytes { seed_bytes result ≡ codes "decoy" }
{
    match Seed::of(b"decoy") {
        Some(seed) => seed,
        None => unreachable!(),
    }
}

/// The seed of a decoy: the first four bytes of its password in lower-case hexadecimal digits.
fn seed_of(password: u64) -> Seed
    ensures { seed_bytes result ≡ encode_lower (take 4 (to_be_bytes w64 password)) }
{
    let bytes = password.to_be_bytes();
    let mut digits = [0; 8];
    let _fits = hex::encode_to_slice(&bytes[..4], &mut digits);
    match Seed::of(&digits) {
        Some(seed) => seed,
        None => unreachable!(),
    }
}

impl Setup {
    /// The password that a name's decoy is made of.
    #[tactic(auto, unfolding(crate::specs::Decoys::decoy_password))]
    fn decoy_password(&self, user: &Name) -> u64
        ensures { result ≡ decoy_password self.now user.now }
    {
        first(Algo::Md5, &self.parts().salt, user.as_slice())
    }

    /// The decoy of a name.
    pub fn decoy(&self, user: &Name) -> Decoy
        ensures algo { result.algo ≡ decoy_algo self.now user.now }
        ensures number { result.n ≡ decoy_number self.now user.now }
        ensures seed { seed_bytes result.seed ≡ decoy_seed self.now user.now }
    {
        let password = self.decoy_password(user);
        Decoy {
            algo: if password / 65_536 % 2 == 1 {
                Algo::Sha1
            } else {
                Algo::Md5
            },
            n: (password % 65_536 % 1000) as u16,
            seed: seed_of(password),
        }
    }
    /// What a user is challenged with that can't log in.
    pub fn challenge_decoy(&self, user: &Name) -> Decision
        ensures { result ≡ decoy_challenge self.now user.now }
    {
        Decision::Permit {
            value: DECOYS_FROM + u64::from(self.decoy(user).n),
        }
    }
}
