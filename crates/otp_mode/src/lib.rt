//! The mode `otp`: a user computes a one-time password of RFC 2289 from a pass phrase. Believe
//! `specs/Words.antt`, `specs/Outcome.antt` and the files that these name; the top call stands above.
#![tactic(auto)]

mod command;
mod line;
mod phrase;
mod printing;
mod run;

pub use command::{OtpCommand, read_otp_command};
pub use line::{LINE_MAX, line_in, receive_line};
pub use phrase::read_phrase;
pub use run::run_otp;
