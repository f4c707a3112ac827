//! The line that says what a status means.

use crate::complaint::Complaint;
use crate::setup_text::setup_text;
use monitor_server::Detail;
use std::alloc::{AllocError, Global};
use std::rt::Files;

/// The line that says what a status means, with a newline at its end. Of a setup that is refused it says
/// more than the complaint itself: it reads the setup a second time, if it is a file still, for the line in
/// which the fault lies.
///
/// # Errors
///
/// There isn't the memory for the text. The complaint can be written without any then.
pub fn complaint_text<R: Files + AllocGlobal>(
    rt: &R,
    alloc: Global,
    complaint: Complaint<'_>,
) -> Result<String, AllocError> {
    match (complaint.detail, complaint.path) {
        (Detail::SetupBad(fault), Some(path)) => setup_text(rt, alloc, path, &fault),
        _ => format!(in alloc; "{complaint}\n"),
    }
}
