//! The setup that stands in a file, and which files are touched where one is named. Believe
//! `specs/Read.antt` and `specs/Touching.antt`; the reading of a service and the modes `audit`, `renew`
//! and `recover` stand above.
#![tactic(auto)]

mod reading;

pub use reading::{SetupFileError, read_setup_file};
