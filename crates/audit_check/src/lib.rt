//! Whether each line of a log is one that the policy allows after those before it. Believe
//! `specs/Legal.antt` and `specs/Said.antt`; the mode `audit` stands above.
#![tactic(auto)]

mod accounts;
mod answer;
mod auditing;
mod following;
mod history;
mod laws;
mod said;
mod seats;
mod sessions;

pub use answer::{Audit, AuditWhy};
pub use auditing::audit;
pub use laws::legal_logs_have_consequences;
