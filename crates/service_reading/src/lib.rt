//! What a run is served with that stands in files: the setup, all of whose numbers of information can be
//! said, and the word list that it names. Believe `specs/Found.antt`; the modes `serve` and `check` stand
//! above.
#![tactic(auto)]

mod error;
mod information;
mod informed;
mod reading;

pub use error::ServiceError;
pub use information::Information;
pub use reading::{ServiceParts, read_service};
