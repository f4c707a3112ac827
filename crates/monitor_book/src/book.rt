//! The book.

ghost use Rattle.std.specs.Prelude.{◌≡◌, ◌<◌, ◌≤◌, ◌++◌, ◌∷◌, [], IfErr, IfOk, List, false, length};
ghost use Rattle.monitor_book.specs.Entering.{Settles, lost_of};
ghost use Rattle.monitor_book.specs.Kept.{IsBook, book_parts};
ghost use Rattle.monitor_book.specs.Lines.{held_by};
ghost use Rattle.policy_model.specs.declared.event.Event.{Event};
ghost use Rattle.policy_model.specs.Asks.{opens};
ghost use Rattle.policy_model.specs.Legal.{next_event};
ghost use Rattle.policy_model.specs.Settings.{events_max};
ghost use Rattle.session_core.specs.Parts.{setup_of};
ghost use Rattle.session_core.specs.Standing.{HasRoom, KeepsSetup, Stands};
ghost use Rattle.policy_laws.specs.Consequences.{HasConsequences};
ghost use Rattle.policy_laws.specs.Strangers.{ShowsNoAccounts};

use crate::opened::Opened;
use decision_log::{is_typed, line};
use outside::Sink;
use policy_model::{Ask, Decision, Event};
use session_core::Core;
use std::alloc::{AllocError, Global};
use std::marker::Model;
use std::snapshot::Snapshot;
use turn_cell::Object;

/// The bytes that a line has at most.
const LINE_MAX: usize = 256;

/// All events of a run, the core that decides, and the log that has a line of each event.
#[derive(Drop)]
pub struct Book<K: Sink> {
    core: Core,
    journal: Vec<Event>,
    lost: bool,
    log: K,
    opened: Snapshot<K>,
}

impl<K: Sink> Model for Book<K> {
    ghost use Rattle.std.specs.Prelude.{◌≤◌, vec_capacity};
    ghost use Rattle.monitor_book.specs.Kept.{BookParts, IsBook, book_parts};
    ghost use Rattle.monitor_book.specs.Lines.{held_by};
    ghost use Rattle.policy_model.specs.Settings.{events_max};
    ghost use Rattle.session_core.specs.Parts.{setup_of};

    ghost Value = { BookParts };

    ghost view = { λ b. book_parts b.core b.journal.items b.lost (held_by K.held K.lengths b.opened.value)
        (held_by K.held K.lengths b.log) (K.faults b.opened.value) (K.faults b.log) };

    ghost invariant = { λ b. IsBook (book_parts b.core b.journal.items b.lost (held_by K.held K.lengths b.opened.value)
        (held_by K.held K.lengths b.log) (K.faults b.opened.value) (K.faults b.log))
        × (events_max (setup_of b.core) ≤ vec_capacity b.journal) };
}

impl<K: Sink> Book<K> {
    /// An empty book over a core in which nothing was settled and which may open a session for each event
    /// of its setup's workers. Memory for each of these events is taken here, and none later.
    ///
    /// # Errors
    ///
    /// There isn't the memory: core and log come back as they were.
    pub fn new(alloc: Global, core: Core, log: K) -> Result<Book<K>, (Core, K, AllocError)>
        requires fresh { Stands core [] }
        requires sessions { events_max (setup_of core) ≤ core.ledger.cap }
        ensures new { IfOk result (λ book. book ≡ book_parts core [] false (held_by K.held K.lengths log)
            (held_by K.held K.lengths log) (K.faults log) (K.faults log)) }
        ensures back { IfErr result (λ back. (back.0 ≡ core) × (back.1 ≡ log)) }
    {
        match Vec::with_capacity(alloc, core.ledger().setup().events_max()) {
            Ok(journal) => {
                let opened = Snapshot::of(&log);
                Ok(Book {
                    core,
                    journal,
                    lost: false,
                    log,
                    opened,
                })
            }
            Err(fault) => Err((core, log, fault)),
        }
    }

    /// All events so far.
    pub fn journal(&self) -> &[Event]
        ensures { result.now ≡ self.now.journal }
    {
        self.journal.as_slice()
    }

    /// The core, all events and the log, with what a book keeps of them.
    pub fn parts(self) -> (Core, Vec<Event>, K)
        ensures core { result.0 ≡ self.core }
        ensures journal { result.1.items ≡ self.journal }
        ensures log { (held_by K.held K.lengths result.2 ≡ self.held) × (K.faults result.2 ≡ self.faults) }
        ensures kept { IsBook self }
        ensures few { length self.journal ≤ 1048576 }
        ensures consequences { HasConsequences (setup_of self.core) self.journal }
        ensures unseen { ShowsNoAccounts (setup_of self.core) self.journal }
    {
        let Book {
            core,
            journal,
            log,
            ..
        } = self;
        (core, journal, log)
    }
}

/// The event as it is where its line is lost: nothing was decided, and an opening has no session.
fn lose(event: Event) -> Event
    ensures { result ≡ lost_of event }
{
    let session = if event.ask.is_begin() {
        0
    } else {
        event.session
    };
    Event {
        session,
        decision: Decision::Lost,
        ..event
    }
}

/// The next event of the core, which is settled, unless its line is lost.
fn settled(core: &mut Core, lost: bool, event: Event) -> Event
    requires worker { event.worker < core.old.ledger.setup.workers }
    requires next { (journal : List Event) → Stands core.old journal
        → event ≡ next_event core.old.ledger.setup journal event.worker event.ask }
    requires room { HasRoom core.old (opens event) }
    ensures kept { KeepsSetup core.old core.new }
    ensures settled { Settles lost event core.old core.new result }
{
    if lost {
        return lose(event);
    }
    core.settle(&event);
    event
}

impl<K: Sink> Object for Book<K> {
    type Call = Ask;

    type Reply = Event;

    type Terms = Opened;

    ghost use Rattle.std.specs.Prelude.{◌≡◌, true};
    ghost use Rattle.monitor_book.specs.Kept.{worker_of};
    ghost use Rattle.policy_model.specs.Asks.{is_proper};
    ghost use Rattle.policy_model.specs.Runs.{IsRun};
    ghost use Rattle.policy_model.specs.Settings.{quota_of};

    ghost terms = { λ b. record { setup = b.core.ledger.setup; held = b.held_first; faults = b.faults_first } };

    ghost history = { λ b. b.journal };

    ghost passes = { λ b. b.core.ledger.setup.workers };

    ghost quota = { λ b. quota_of b.core.ledger.setup };

    ghost owner = { worker_of };

    ghost call_of = { λ e. e.ask };

    ghost proper = { λ ask. is_proper ask ≡ true };

    ghost legal = { λ t journal. IsRun t.setup journal };

    /// Decides an ask, writes the event's line to the log, and only then settles it. Where the line could
    /// not be written the decision is `Lost`, and so is each later one.
    fn apply(&mut self, who: u32, call: Ask) -> Event {
        let next = self.core.next_event(who, &call);
        is_typed(&next);
        let mut text = [0; LINE_MAX];
        let len = line(self.journal.len() as u32 + 1, &next, &mut text);
        let lost = self.lost || self.log.append(&text[..len]).is_err();
        let event = settled(&mut self.core, lost, next);
        self.lost = lost;
        self.journal.push_reserved(event);
        event
    }

    fn passes(&self) -> u32 {
        self.core.ledger().setup().workers()
    }

    fn quota(&self) -> u64 {
        let setup = self.core.ledger().setup();
        u64::from(setup.connections()) * (u64::from(setup.requests()) + 3)
    }
}
