//! The catalogue of requests that a child process makes of the monitor, and the monitor's replies: what
//! a message's body must be for each kind of request, read and written exactly. Believe `specs/`;
//! frames, the policy and the children stand above.
#![tactic(auto)]

mod answer;
mod fields;
mod kind;
mod putting;
mod reading;
mod replies;
mod request;
pub mod rules;
mod texts;
mod width;
mod writing;

pub use answer::{Answer, Unreadable};
pub use kind::Kind;
pub use putting::put;
pub use reading::read_request;
pub use replies::{read_reply, reply_kind, write_reply};
pub use request::{Bad, Request};
pub use texts::{Label, Name, Note, are_printable, is_typed_reply};
pub use width::Width;
pub use writing::write_request;
