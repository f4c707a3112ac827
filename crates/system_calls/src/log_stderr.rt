use mio::unix::SourceFd;
use mio::{Events, Interest, Poll, Token};
use std::alloc::Global;
use std::io;
use std::io::{ErrorKind, Stderr, Write};
use std::net::Net;
use std::os::fd::RawFd;
use std::time::Duration;

/// The number of standard error.
const ERROR: RawFd = 2;

/// Under this name the system tells that standard error is ready.
const READY: Token = Token(0);

/// Standard error as a log.
#[derive(Drop)]
pub struct LogStderr {
    stderr: Stderr,
    /// What tells that it is ready, where a writing is not to wait.
    poll: Option<ReadyPoll>,
}

/// The system's means to tell that standard error is ready.
#[derive(Drop)]
struct ReadyPoll {
    poll: Poll,
    events: Events,
}

impl LogStderr {
    /// Standard error, of which a writing waits until it is taken.
    pub fn waiting(stderr: Stderr) -> LogStderr {
        LogStderr { stderr, poll: None }
    }

    /// Standard error, of which a short writing fails where it would wait: at a pipe or a socket that
    /// nobody reads, or at a terminal that is stopped.
    pub fn prompt<R: Net>(rt: &R, alloc: Global, stderr: Stderr) -> io::Result<LogStderr> {
        Ok(LogStderr {
            stderr,
            poll: ready_poll(rt, alloc)?,
        })
    }

    /// Whether a short writing doesn't wait.
    fn is_ready(&mut self) -> io::Result<bool> {
        match &mut self.poll {
            Some(ready) => ready.is_ready(),
            None => Ok(true),
        }
    }
}

impl Write for LogStderr {
    fn write(&mut self, buf: &[u8]) -> io::Result<usize> {
        if !self.is_ready()? {
            return Err(io::Error::from(ErrorKind::WouldBlock));
        }
        self.stderr.write(buf)
    }

    fn flush(&mut self) -> io::Result<()> {
        Ok(())
    }
}

impl ReadyPoll {
    /// Whether standard error is ready now. It is registered anew each time, since the system tells
    /// a change alone.
    fn is_ready(&mut self) -> io::Result<bool> {
        let registry = self.poll.registry();
        registry.reregister(&mut SourceFd(&ERROR), READY, Interest::WRITABLE)?;
        self.poll.poll(&mut self.events, Some(Duration::ZERO))?;
        Ok(!self.events.is_empty())
    }
}

/// What tells that standard error is ready. `None`: it is a file, which makes no writing wait.
fn ready_poll<R: Net>(rt: &R, alloc: Global) -> io::Result<Option<ReadyPoll>> {
    let poll = Poll::new(rt)?;
    let events = Events::with_capacity(alloc, 1)?;
    match registered(&poll) {
        Ok(()) => Ok(Some(ReadyPoll { poll, events })),
        Err(error) if error.kind() == ErrorKind::PermissionDenied => Ok(None),
        Err(error) => Err(error),
    }
}

/// Has standard error's readiness told.
fn registered(poll: &Poll) -> io::Result<()> {
    let registry = poll.registry();
    registry.register(&mut SourceFd(&ERROR), READY, Interest::WRITABLE)
}
