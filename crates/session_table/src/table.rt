//! The rows of all workers.

ghost use Rattle.std.specs.Prelude.{◌≡◌, ◌<◌, ◌-◌, ◌^◌, ◌+◌, None, IfOk, is_none, is_some, true, length, slice_set};
ghost use Rattle.std.specs.Option.{option_copied};
ghost use Rattle.session_table.specs.Rows.{is_use};
ghost use Rattle.session_table.specs.Tables.{FitsWorker, StandsBegun, StandsEnded, StandsKept, StandsOpen, new_table};
ghost use Rattle.session_table.specs.Tables.{row_at, rows_after, table_after, table_begun, table_ended};

use crate::rows::SessionRow;
use policy_model::Event;
use std::alloc::{AllocError, Global};
use std::marker::Model;

/// The rows of the sessions that are open, one a worker, and how many sessions were opened.
#[derive(Drop)]
pub struct Table {
    rows: Vec<Option<SessionRow>>,
    begun: u32,
}

impl Model for Table {
    ghost use Rattle.session_table.specs.Tables.{TableParts};

    ghost Value = { TableParts };

    ghost view = { λ t. record { rows = t.rows.items; begun = t.begun } };
}

/// What an event makes of the row of its worker, if it has one.
fn put(rows: &mut Vec<Option<SessionRow>>, worker: u32, event: &Event, account: u32, grant: u32)
    requires worker { worker < length rows.old.items }
    requires fits { FitsWorker rows.old.items worker event.now }
    ensures { rows.new.items ≡ rows_after rows.old.items worker event.now account grant }
{
    if let Some(row) = &mut rows[worker as usize] {
        row.advance(event, account, grant);
    }
}

/// What a permitted READ or WRITE makes of the row of its worker, if it has one.
fn put_use(rows: &mut Vec<Option<SessionRow>>, worker: u32, event: &Event)
    requires worker { worker < length rows.old.items }
    requires fits { FitsWorker rows.old.items worker event.now }
    requires kind { is_use event.now ≡ true }
    ensures { rows.new.items ≡ rows_after rows.old.items worker event.now 0 0 }
{
    if let Some(row) = &mut rows[worker as usize] {
        row.advance_use(event);
    }
}

impl Table {
    /// The table of so many workers, of which none has a session. It takes no memory later.
    ///
    /// # Errors
    ///
    /// There isn't the memory.
    pub fn new(alloc: Global, workers: u32) -> Result<Table, AllocError>
        ensures value { IfOk result (λ table. table ≡ new_table workers) }
        ensures stands { IfOk result (λ table. StandsOpen workers table) }
    {
        let mut rows = Vec::with_capacity(alloc, workers as usize)?;
        for _ in 0..workers {
            rows.push(None)?;
        }
        Ok(Table { rows, begun: 0 })
    }

    /// The worker has a session. Its number is answered, the next after those that were given, from 1 on.
    pub fn begin(&mut self, worker: u32) -> u32
        requires worker { worker < length self.old.rows }
        requires idle { is_none (row_at self.old worker) ≡ true }
        requires few { self.old.begun < 2 ^ 32 - 1 }
        ensures number { result ≡ self.old.begun + 1 }
        ensures value { self.new ≡ table_begun self.old worker }
        ensures stands { StandsBegun self.old worker self.new }
    {
        self.begun += 1;
        self.rows[worker as usize] = Some(SessionRow::new(self.begun));
        self.begun
    }

    /// How many sessions were opened.
    pub fn begun(&self) -> u32
        ensures { result ≡ self.now.begun }
    {
        self.begun
    }

    /// The row of the worker's session, if it has one.
    pub fn row(&self, worker: u32) -> Option<&SessionRow>
        requires { worker < length self.now.rows }
        ensures { option_copied result ≡ row_at self.now worker }
    {
        self.rows[worker as usize].as_ref()
    }

    /// What an event of the worker makes of its row, where the event neither opens nor ends a session;
    /// `account` and `grant` are as `SessionRow::advance` says. A worker without a row has none after it.
    pub fn advance(&mut self, worker: u32, event: &Event, account: u32, grant: u32)
        requires worker { worker < length self.old.rows }
        requires fits { FitsWorker self.old.rows worker event.now }
        ensures value { self.new ≡ table_after self.old worker event.now account grant }
        ensures stands { StandsKept self.old worker event.now account grant self.new }
    {
        put(&mut self.rows, worker, event, account, grant);
    }

    /// What `advance` does, where the event is a permitted READ or WRITE, which names no account and no grant.
    pub fn advance_use(&mut self, worker: u32, event: &Event)
        requires worker { worker < length self.old.rows }
        requires fits { FitsWorker self.old.rows worker event.now }
        requires kind { is_use event.now ≡ true }
        ensures { self.new ≡ table_after self.old worker event.now 0 0 }
    {
        put_use(&mut self.rows, worker, event);
    }

    /// The worker has no session any more.
    pub fn end(&mut self, worker: u32)
        requires worker { worker < length self.old.rows }
        requires open { is_some (row_at self.old worker) ≡ true }
        ensures value { self.new ≡ table_ended self.old worker }
        ensures stands { StandsEnded self.old worker self.new }
    {
        self.rows[worker as usize] = None;
    }
}
