//! The hash step and the chain of passwords.

ghost use Rattle.std.specs.Prelude.{◌≡◌, ◌++◌};
ghost use Rattle.otp_hash.specs.Hashing.{password_of, hash_of, chain_of};
ghost use Rattle.otp_hash.specs.SeedBytes.{seed_bytes};

use crate::fold::{fold_md5, fold_sha1};
use crate::seed::Seed;
use md5::{Digest, Md5};
use sha1::Sha1;

/// The hash function of a chain.
#[derive(Clone, Copy, PartialEq, Eq, Debug)]
pub enum Algo {
    Md5,
    Sha1,
}

/// The password that follows from a password: the hash of its eight bytes, first byte most
/// significant, folded to eight bytes (RFC 2289, section 6.0 and appendix A).
#[tactic(auto, unfolding(crate::specs::Hashing::hash_of, crate::specs::Hashing::password_of))]
pub fn step(algo: Algo, password: u64) -> u64
    ensures { result ≡ hash_of algo password }
{
    let message = password.to_be_bytes();
    let folded = match algo {
        Algo::Md5 => fold_md5(&Md5::digest(message)),
        Algo::Sha1 => fold_sha1(&Sha1::digest(&message)),
    };
    u64::from_be_bytes(folded)
}

/// The password at 0: the hash of the seed followed by the phrase, folded.
#[tactic(auto, unfolding(crate::specs::Hashing::chain_of, crate::specs::Hashing::password_of))]
pub fn first(algo: Algo, seed: &Seed, phrase: &[u8]) -> u64
    ensures { result ≡ chain_of algo (seed_bytes seed.now) phrase.now 0 }
{
    let seed = seed.as_slice();
    let first = match algo {
        Algo::Md5 => {
            let mut hasher = Md5::new();
            hasher.update(seed);
            hasher.update(phrase);
            fold_md5(&hasher.finalize())
        }
        Algo::Sha1 => {
            let mut hasher = Sha1::new();
            hasher.update(seed);
            hasher.update(phrase);
            fold_sha1(&hasher.finalize())
        }
    };
    u64::from_be_bytes(first)
}

/// The password at `n`: `n` steps from the password at 0.
#[tactic(auto, unfolding(crate::specs::Hashing::chain_of))]
pub fn at(algo: Algo, seed: &Seed, phrase: &[u8], n: u16) -> u64
    ensures { result ≡ chain_of algo (seed_bytes seed.now) phrase.now n }
{
    let mut password = first(algo, seed, phrase);
    for _ in 0..n {
        password = step(algo, password);
    }
    password
}
