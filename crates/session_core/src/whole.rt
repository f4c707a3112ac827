//! The core.

ghost use Rattle.std.specs.Prelude.{◌≡◌, ◌<◌, ◌-◌, ◌^◌, ◌+◌, ◌++◌, ◌∷◌, ◌&&◌, [], List, IfOk, is_none};
ghost use Rattle.policy_model.specs.declared.event.Event.{Event};
ghost use Rattle.policy_model.specs.Asks.{is_begin, opens};
ghost use Rattle.policy_model.specs.Journal.{open_session_of};
ghost use Rattle.policy_model.specs.Legal.{next_event};
ghost use Rattle.session_core.specs.Deciding.{core_decision};
ghost use Rattle.session_core.specs.Parts.{row_of};
ghost use Rattle.session_core.specs.Settling.{core_event};
ghost use Rattle.session_core.specs.Standing.{HasRoom, KeepsSetup, Stands};

use crate::deciding::judge;
use crate::settling::{session_for, session_of, settle};
use crate::stand_ins::StandIns;
use otp_ledger::Ledger;
use policy_model::{Ask, Event, Setup, Step};
use session_table::Table;
use std::alloc::{AllocError, Global};
use std::marker::Model;

/// What the policy knows between events: the accounts, the sessions that are open, and how many events
/// were settled.
#[derive(Drop)]
pub struct Core {
    ledger: Ledger,
    table: Table,
    settled: u32,
    stand_ins: StandIns,
}

impl Model for Core {
    ghost use Rattle.session_core.specs.Parts.{CoreParts};

    ghost Value = { CoreParts };

    ghost view = { λ c. record { ledger = c.ledger; table = c.table; settled = c.settled } };

    ghost use Rattle.session_core.specs.Standing.{HasJournal};

    ghost invariant = { λ c. HasJournal (record { ledger = c.ledger; table = c.table; settled = c.settled }) };
}

impl Core {
    /// The core before the first event; at most `cap` sessions may be opened. It takes no memory later.
    ///
    /// # Errors
    ///
    /// There isn't the memory.
    pub fn new(alloc: Global, setup: &Setup, cap: u32) -> Result<Core, AllocError>
        ensures stands { IfOk result (λ core. Stands core []) }
        ensures setup { IfOk result (λ core. core.ledger.setup ≡ setup.now) }
        ensures cap { IfOk result (λ core. core.ledger.cap ≡ cap) }
    {
        let workers = setup.workers();
        let stand_ins = StandIns::new(alloc, workers)?;
        let ledger = Ledger::new(alloc, setup, cap)?;
        let table = Table::new(alloc, workers)?;
        Ok(Core {
            ledger,
            table,
            settled: 0,
            stand_ins,
        })
    }

    /// The event of an ask with what the accounts and the rows decide.
    fn event(&self, worker: u32, ask: &Ask) -> Event
        requires worker { worker < self.now.ledger.setup.workers }
        requires few { self.now.settled < 2 ^ 32 - 1 }
        ensures { result ≡ core_event self.now worker ask.now (core_decision self.now worker ask.now) }
    {
        let row = self.table.row(worker);
        let begun = self.table.begun();
        let stand_in = self.stand_ins.of(worker);
        let decision = judge(&self.ledger, row, begun, stand_in, ask);
        Event {
            worker,
            session: session_for(begun, session_of(row), ask, &decision),
            ask: *ask,
            decision,
        }
    }

    /// The worker's open session, or 0.
    pub fn session(&self, worker: u32) -> u32
        requires worker { worker < self.now.ledger.setup.workers }
        ensures session { (journal : List Event) → Stands self.now journal → result ≡ open_session_of journal worker }
    {
        session_of(self.table.row(worker))
    }

    /// What the policy knows of the accounts.
    pub fn ledger(&self) -> &Ledger
        ensures { result.now ≡ self.now.ledger }
    {
        &self.ledger
    }

    /// The event of an ask of a worker, over the events settled so far: its decision is the verdict, and never
    /// `Lost`.
    pub fn next_event(&self, worker: u32, ask: &Ask) -> Event
        requires worker { worker < self.now.ledger.setup.workers }
        requires few { self.now.settled < 2 ^ 32 - 1 }
        ensures { (journal : List Event) → Stands self.now journal → result ≡ next_event self.now.ledger.setup
            journal worker ask.now }
    {
        self.event(worker, ask)
    }

    /// Settles the next event of a worker: later decisions take it into account. A permitted opening has to be
    /// within the sessions that may be opened.
    pub fn settle(&mut self, event: &Event)
        requires worker { event.now.worker < self.old.ledger.setup.workers }
        requires next { (journal : List Event) → Stands self.old journal
            → event.now ≡ next_event self.old.ledger.setup journal event.now.worker event.now.ask }
        requires room { HasRoom self.old (opens event.now) }
        ensures kept { KeepsSetup self.old self.new }
        ensures stands { (journal : List Event) → Stands self.old journal
            → Stands self.new (journal ++ event.now ∷ []) }
    {
        settle(&mut self.ledger, &mut self.table, event);
        self.settled += 1;
        self.stand_ins.keep(event.worker, &event.ask);
    }

    /// Makes the next event of a step, and settles it.
    pub fn step(&mut self, step: &Step) -> Event
        requires worker { step.now.worker < self.old.ledger.setup.workers }
        requires room { HasRoom self.old (is_begin step.now.ask && is_none (row_of self.old step.now.worker)) }
        ensures kept { KeepsSetup self.old self.new }
        ensures event { (journal : List Event) → Stands self.old journal → result ≡ next_event self.old.ledger.setup
            journal step.now.worker step.now.ask }
        ensures stands { (journal : List Event) → Stands self.old journal → Stands self.new (journal ++ result ∷ []) }
    {
        let event = self.event(step.worker, &step.ask);
        self.settle(&event);
        event
    }
}
