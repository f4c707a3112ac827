//! How often the outside failed.

use outside_real::RealPost;
use std::fmt;

/// How often the outside failed in a run, by kind.
#[derive(Clone, Copy)]
pub struct RunFaults {
    /// Waits for a connection.
    pub accept: u64,
    /// Starts of a child.
    pub start: u64,
    /// Children whose link failed, or that had to be killed.
    pub link: u64,
    /// Calls on a client's connection.
    pub connection: u64,
    /// Calls on the users' files.
    pub vault: u64,
    /// Copies of a durable log's lines to standard error.
    pub dropped: u64,
    /// Workers for which no thread could be made.
    pub thread: u64,
}

impl RunFaults {
    /// The faults of a run's posts and of its log.
    pub fn of<R>(posts: &[RealPost<R>], dropped: u64) -> RunFaults {
        let mut all = RunFaults {
            accept: 0,
            start: 0,
            link: 0,
            connection: 0,
            vault: 0,
            dropped,
            thread: threadless(posts),
        };
        for post in posts {
            let faults = post.faults();
            all.accept = all.accept.saturating_add(faults.accept);
            all.start = all.start.saturating_add(faults.keeper);
            all.link = all.link.saturating_add(faults.link);
            all.connection = all.connection.saturating_add(faults.conn);
            all.vault = all.vault.saturating_add(faults.vault);
        }
        all
    }

    /// Whether there was none.
    pub fn is_none(&self) -> bool {
        self.accept == 0
            && self.start == 0
            && self.link == 0
            && self.connection == 0
            && self.vault == 0
            && self.dropped == 0
            && self.thread == 0
    }
}

/// How many posts served in the thread of one before them: no thread could be made for these.
fn threadless<R>(posts: &[RealPost<R>]) -> u64 {
    let mut count = 0u64;
    for (place, post) in posts.iter().enumerate() {
        if posts
            .iter()
            .take(place)
            .any(|other| other.shares_thread(post))
        {
            count = count.saturating_add(1);
        }
    }
    count
}

impl fmt::Display for RunFaults {
    fn fmt<W: fmt::Write>(&self, f: &mut fmt::Formatter<W>) -> fmt::Result {
        let RunFaults {
            accept,
            start,
            link,
            connection,
            vault,
            dropped,
            thread,
        } = *self;
        write!(
            f,
            "otplogd: faults: accept {accept}, start {start}, link {link}, "
        )?;
        write!(
            f,
            "connection {connection}, vault {vault}, dropped lines {dropped}, thread {thread}"
        )
    }
}
