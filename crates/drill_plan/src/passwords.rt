//! The users of a drill and their passwords: one user for each worker.

ghost use Rattle.std.specs.Prelude.{◌≡◌, ◌+◌, ◌++◌, ◌<◌, ◌≤◌, ℕ, IfOk, length, slice_index, vec_len};
ghost use Rattle.std.specs.Fmt.{decimal};
ghost use Rattle.otp_hash.specs.SeedBytes.{seed_bytes};
ghost use Rattle.request_catalogue.specs.TextBytes.{name_bytes};
ghost use Rattle.drill_plan.specs.Passwords.{drill_phrase, own_algo, own_name, own_password, own_seed, session_count};

use otp_hash::{Algo, Seed, first, step};
use request_catalogue::Name;
use std::alloc::{AllocError, Global};
use text_line::{Line, put, put_number};

/// The bytes of a text with a number after it.
fn numbered(text: &[u8], number: u32) -> Line
    requires { length text.now ≤ 64 }
    ensures { result.items ≡ text.now ++ decimal number }
{
    let mut line = Line::new();
    put(&mut line, text);
    put_number(&mut line, number);
    line
}

/// The name of a worker's user: `d` and the worker's number.
pub fn own_name(worker: u32) -> Name
    requires { worker < 4 }
    ensures { name_bytes result ≡ own_name worker }
{
    match Name::of(numbered(b"d", worker).as_slice()) {
        Some(name) => name,
        None => unreachable!(),
    }
}

/// The seed of a worker's user: `drill` and the worker's number.
pub fn own_seed(worker: u32) -> Seed
    requires { worker < 4 }
    ensures { seed_bytes result ≡ own_seed worker }
{
    match Seed::of(numbered(b"drill", worker).as_slice()) {
        Some(seed) => seed,
        None => unreachable!(),
    }
}

/// The algorithm of a worker's user.
pub fn own_algo(worker: u32) -> Algo
    ensures { result ≡ own_algo worker }
{
    if worker % 2 == 0 {
        Algo::Md5
    } else {
        Algo::Sha1
    }
}

/// The passwords of a worker's user in the drill of `n`, by their counts from 0 to `8 * n`.
///
/// # Errors
///
/// There isn't the memory.
pub fn own_passwords(alloc: Global, n: u32, worker: u32) -> Result<Vec<u64>, AllocError>
    requires number { n ≤ 64 }
    requires workers { worker < 4 }
    ensures len { IfOk result (λ passwords. vec_len passwords ≡ session_count n + 1) }
    ensures each { IfOk result (λ passwords. (count : ℕ) → count ≤ session_count n →
        slice_index passwords.items count ≡ own_password n worker count) }
{
    let algo = own_algo(worker);
    let phrase = numbered(b"drill phrase ", n);
    let mut passwords = Vec::new(alloc);
    passwords.push(first(algo, &own_seed(worker), phrase.as_slice()))?;
    for count in 0..8 * n {
        passwords.push(step(algo, passwords[count as usize]))?;
    }
    Ok(passwords)
}
