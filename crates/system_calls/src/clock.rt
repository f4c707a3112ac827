use std::io;
use std::time::{Clock, Instant};

/// Milliseconds since a moment that is the same for all posts of one `listen`.
#[derive(Clone, Copy)]
pub struct PostClock {
    start: Option<Instant>,
    last: u64,
}

impl PostClock {
    /// A clock that starts now. Where the system's can't be read it stays at 0.
    pub fn start(clock: &impl Clock) -> PostClock {
        PostClock {
            start: Instant::now(clock).ok(),
            last: 0,
        }
    }

    /// The moment now, or the last one where the system's clock can't be read.
    pub fn now(&mut self, clock: &impl Clock) -> u64 {
        if let Some(start) = self.start {
            self.last = millis_since(clock, start).unwrap_or(self.last);
        }
        self.last
    }
}

/// The milliseconds since a moment.
fn millis_since(clock: &impl Clock, start: Instant) -> io::Result<u64> {
    let millis = start.elapsed(clock)?.as_millis();
    Ok(u64::try_from(millis).unwrap_or(u64::MAX))
}
