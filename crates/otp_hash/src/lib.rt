//! The one-time passwords of RFC 2289: the hash step, the seeds, the chains of passwords, and the names
//! of the algorithms. Believe `specs/`; the spellings, the policy and the ledger stand above.
#![tactic(auto)]

mod chain;
mod fold;
mod name;
mod seed;

pub use chain::{Algo, at, first, step};
pub use name::algo_named;
pub use seed::Seed;
