//! What the child before the login leaves to the user's child: the exported state, and the record
//! by which the monitor hands it on. The monitor carries a state unread. Believe `specs/`; the
//! session loop and the children stand above.
#![tactic(auto)]

mod fault;
mod import;
mod reading;
mod state;
mod writing;

pub use fault::{ImportFault, StateFault};
pub use import::{IMPORT_MAX, Import, read_import, write_import};
pub use reading::read_state;
pub use state::{STATE_MAX, State};
pub use writing::write_state;
