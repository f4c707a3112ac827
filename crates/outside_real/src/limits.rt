use std::time::Duration;

/// How long others may keep a post waiting. Each is above 0.
#[derive(Clone, Copy)]
pub struct Limits {
    /// A client, in one reading or one writing.
    pub client: Duration,
    /// A child, in one reading or one writing.
    pub child: Duration,
    /// A child that was given back, until it has ended.
    pub end: Duration,
    /// A session from its accept until its user's child is started, client and child together.
    pub login: Duration,
    /// A session from its accept to its end, client and children together.
    pub session: Duration,
}

impl Limits {
    /// What a server needs: 120 seconds for a client, 30 for a child, 2 for a child's end, 120 for a
    /// login and an hour for a session.
    pub fn usual() -> Limits {
        Limits {
            client: Duration::from_secs(120),
            child: Duration::from_secs(30),
            end: Duration::from_secs(2),
            login: Duration::from_secs(120),
            session: Duration::from_secs(3_600),
        }
    }
}
