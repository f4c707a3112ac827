ghost use Rattle.std.specs.Prelude.{◌≡◌};
ghost use Rattle.outside_memory.specs.Failures.{failure_of};

/// The kinds of calls that an object in memory can be told to fail.
#[derive(Clone, Copy, PartialEq, Eq)]
pub enum CallKind {
    /// A stream's `recv`.
    Recv,
    /// A stream's `send`.
    Send,
    /// A sink's `append`.
    Append,
    /// A file's `read`.
    Read,
    /// A file's `replace`.
    Replace,
    /// A post's `accept`.
    Accept,
    /// A post's `start`.
    Start,
    /// A post's `conn_recv`.
    ConnRecv,
    /// A post's `conn_send`.
    ConnSend,
    /// A post's `vault_read`.
    VaultRead,
    /// A post's `vault_write`.
    VaultWrite,
}

/// A call that is to fail: the one of this kind with this number, counted from 1. Of two entries
/// for one call the first counts.
#[derive(Clone, Copy, PartialEq, Eq)]
pub struct Fail {
    pub call: CallKind,
    pub number: u32,
    /// How many bytes of a send or an append still go out; all, where it has fewer. Calls of other
    /// kinds don't look at it.
    pub sent: usize,
}

/// How many bytes still go out by the call of this kind with this number, if it is to fail.
pub(crate) fn find_failure(fails: &[Fail], call: CallKind, number: u64) -> Option<usize>
    ensures { result ≡ failure_of fails.now call number }
{
    fails
        .iter()
        .find(|f| f.call == call && u64::from(f.number) == number)
        .map(|f| f.sent)
}
