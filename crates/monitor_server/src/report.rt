//! What a run came to.

ghost use Rattle.std.specs.Prelude.{◌≡◌};
ghost use Rattle.monitor_server.specs.declared.report.Detail.TheVariants.{Nothing};
ghost use Rattle.monitor_server.specs.Around.{only_answer};

use crate::world::World;
use account_file::SetupFault;
use audit_check::AuditWhy;
use otp_words::DictFault;
use outside::{Files, Post, Sink, Site, Stream};
use policy_model::Event;
use std::alloc::Global;
use std::marker::Model;
use trouble::{FileKind, RenewFault};

/// The least number of requests of which `check` doesn't say that they are few: a login by the shipped
/// children takes nine, and one more for each further piece in which the client's bytes come.
pub const FEW_REQUESTS: u32 = 16;

/// What an exit status alone doesn't tell.
#[derive(Clone, Copy, PartialEq, Eq)]
pub enum Detail {
    /// There is no more to tell.
    Nothing,
    /// The setup that was checked is right, with status 0, but allows fewer requests a session than a
    /// login may take: fewer than [`FEW_REQUESTS`].
    FewRequests { requests: u32 },
    /// A file is not there, with status 4.
    Missing { file: FileKind },
    /// The setup is refused by this fault, with status 5.
    SetupBad(SetupFault),
    /// The word list is refused by this fault, with status 5.
    WordsBad(DictFault),
    /// The durable log that was named isn't there, or has something else than no record, with status 13.
    LogNotFresh,
    /// The durable log can't be recovered from, with status 13: its record at this place, counted from 1,
    /// is the first with a fault; 0 where the file is no log.
    LogBad { number: u32 },
    /// The log stops being a legal one at this line, counted from 1, with status 14.
    AuditNo { line: u32, why: AuditWhy },
    /// The response renews nothing, with status 15.
    RenewBad(RenewFault),
}

/// What came of words that served nobody.
#[derive(Clone, Copy, PartialEq, Eq)]
pub struct Answer {
    /// The program's exit status, as of [`Report`].
    pub status: u8,
    /// Which file is missing, or what is wrong with one or with the response.
    pub detail: Detail,
}

impl Answer {
    /// A status alone.
    pub(crate) fn plain(status: u8) -> Answer
        ensures { result ≡ record { status = status; detail = Nothing } }
    {
        Answer {
            status,
            detail: Detail::Nothing,
        }
    }
}

/// What a run says. Contracts see it as `Said`, and each post as what that reports and its counts of faults.
#[derive(Drop)]
pub struct Report<P: Post> {
    /// The program's exit status: 0 where nothing below applies, 2 where the words are no command,
    /// 3 where a file could not be read, 4 where one isn't there, 5 where a setup or a word list is
    /// refused, 6 where the site could not listen, 7 where the log could not be written, 8 where the
    /// setup could not be replaced, 9 if out of memory, 10 where a worker could not wait for a
    /// connection, 11 where the ends failed, 12 where the pass phrase is refused, a response isn't one
    /// or what a child was sent can't be read, 13 where a durable log isn't fresh or has a fault, 14 where
    /// a log is not legal, 15 where a response renews nothing.
    pub status: u8,
    /// Which file is missing, or what is wrong with one or with the response.
    pub detail: Detail,
    /// All events of the run, in the order in which they were decided.
    pub journal: Vec<Event>,
    /// The posts of the workers, in their order; none where nobody was served.
    pub posts: Vec<P>,
}

impl<P: Post> Model for Report<P> {
    ghost use Rattle.std.specs.Prelude.{map};
    ghost use Rattle.monitor_run.specs.Posts.{seen};
    ghost use Rattle.monitor_server.specs.Around.{Said};

    ghost Value = { Said };

    ghost view = { λ r. record {
      status = r.status;
      detail = r.detail;
      journal = r.journal.items;
      posts = map (seen P.scene P.faults) r.posts.items;
    } };
}

/// A run that is over: what it says, and what it was made over.
#[derive(Drop)]
pub struct Ended<F: Files, S: Site, K: Sink, E: Stream> {
    /// What it says.
    pub said: Report<S::Post>,
    /// What it was made over.
    pub world: World<F, S, K, E>,
}

/// The end of words that served nobody, and of which there is no event.
pub(crate) fn end_unserved<F: Files, S: Site, K: Sink, E: Stream>(
    alloc: Global,
    answer: Answer,
    world: World<F, S, K, E>,
) -> Ended<F, S, K, E>
    ensures said { result.said ≡ only_answer answer }
    ensures world { result.world ≡ world }
{
    let said = Report {
        status: answer.status,
        detail: answer.detail,
        journal: Vec::new(alloc),
        posts: Vec::new(alloc),
    };
    Ended { said, world }
}
