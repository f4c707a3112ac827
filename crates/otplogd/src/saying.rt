//! What a run says on standard error beside its log: when it listens, and at its end.

use crate::durable::prompt_stderr;
use messages::{Complaint, RunCounts, RunFaults, complaint_text, notice_text};
use outside::{Files, Word};
use outside_real::Notice;
use std::alloc::Global;
use std::io;
use std::io::Write;
use std::rt::Env;
use system_calls::LogStderr;

/// What a run with a durable log says once it listens by the setup of this name. `None`: the setup isn't
/// right, or there isn't the memory.
pub(crate) fn notice_of<F: Files>(
    rt: HostRuntime,
    alloc: Global,
    files: &mut F,
    name: &Word,
) -> Option<Notice> {
    let text = notice_text(alloc, files, name)?;
    Some(Notice {
        stderr: prompt_stderr(rt, alloc),
        text,
    })
}

/// Writes the line of a complaint.
fn say_complaint(
    rt: HostRuntime,
    alloc: Global,
    stderr: &mut LogStderr,
    complaint: Complaint<'_>,
) -> io::Result<()> {
    let line = complaint_text(&rt, alloc, complaint)?;
    stderr.write_all(line.as_bytes())
}

/// Writes the line of a run's faults.
fn say_faults(alloc: Global, stderr: &mut LogStderr, faults: RunFaults) -> io::Result<()> {
    let line = format!(in alloc; "{faults}\n")?;
    stderr.write_all(line.as_bytes())
}

/// Writes the line of a run's counts.
fn say_counts(alloc: Global, stderr: &mut LogStderr, counts: RunCounts) -> io::Result<()> {
    let line = format!(in alloc; "{counts}\n")?;
    stderr.write_all(line.as_bytes())
}

/// Writes what there is to say of a run.
fn say_run(
    rt: HostRuntime,
    stderr: &mut LogStderr,
    complaint: Complaint<'_>,
    faults: RunFaults,
    counts: Option<RunCounts>,
) -> io::Result<()> {
    let alloc = rt.alloc();
    if complaint.status != 0 {
        say_complaint(rt, alloc, stderr, complaint)?;
    }
    if !faults.is_none() {
        say_faults(alloc, stderr, faults)?;
    }
    match counts {
        Some(counts) => say_counts(alloc, stderr, counts),
        None => Ok(()),
    }
}

/// Says on standard error why a run ended, where that isn't with 0, which faults it had, and what it came
/// to, where its log is a durable one. Nothing waits for that then: standard error is no log.
pub(crate) fn say_end(
    rt: HostRuntime,
    complaint: Complaint<'_>,
    faults: RunFaults,
    counts: Option<RunCounts>,
) -> io::Result<()> {
    let mut stderr = match counts {
        Some(_) => prompt_stderr(rt, rt.alloc()),
        None => LogStderr::waiting(rt.stderr()),
    };
    say_run(rt, &mut stderr, complaint, faults, counts)
}
