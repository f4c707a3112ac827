use std::process::{Child, SystemProcess};
use std::time::{Clock, Duration, Instant};
use std::{io, thread};

/// How many microseconds are slept before a child's end is looked for a second time.
const FIRST_NAP: u64 = 50;

/// The most microseconds that are slept before it is looked for once more.
const LONGEST_NAP: u64 = 1_000;

/// Whether a child ends within a time. It is looked for again after naps that grow, since most
/// children are gone at once.
pub fn has_ended<R: Clock>(
    rt: &R,
    program: &mut Child<SystemProcess>,
    limit: Duration,
) -> io::Result<bool> {
    let start = Instant::now(rt)?;
    let mut nap = FIRST_NAP;
    for _ in 0..u64::MAX {
        if program.try_wait()?.is_some() {
            return Ok(true);
        }
        if start.elapsed(rt)? >= limit {
            break;
        }
        thread::sleep(rt, Duration::from_micros(nap));
        nap = nap.saturating_mul(2).min(LONGEST_NAP);
    }
    Ok(false)
}
