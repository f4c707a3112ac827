//! The outside of the monitor: the traits through which it reaches children, clients, logs, files and
//! its site. Objects in memory and those of the real machine stand in crates of their own. Believe
//! `specs/Scene.antt`, `specs/Link.antt`, `specs/Files.antt` and `specs/Told.antt`; all that reaches
//! the outside stands above.
#![tactic(auto)]

mod act;
mod bytes;
mod faults;
mod files;
mod place;
mod post;
mod receiving;
mod sink;
mod site;
mod stream;
mod touched;

pub use act::{Accepted, Act, Failed, Role, Talk};
pub use bytes::{Bytes, Word};
pub use faults::{Faults, link_count};
pub use files::Files;
pub use place::Place;
pub use post::Post;
pub use receiving::{Receiving, Receivings};
pub use sink::Sink;
pub use site::Site;
pub use stream::Stream;
pub use touched::FileNames;
