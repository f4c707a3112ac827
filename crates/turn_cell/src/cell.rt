//! The cell.
ghost use Rattle.std.specs.Prelude.{◌≡◌, ℕ, ◌+◌, ◌*◌, ◌<◌, ◌≤◌, ◌^◌, List, [], ◌∷◌, ◌++◌, length, vec_len};
ghost use Rattle.std.specs.Prelude.{vec_capacity, true, false, Some, None, IfOk, IfErr};
ghost use Rattle.std.specs.List.{All};
ghost use Rattle.turn_cell.specs.Facts.{StartsWith, EndsWith, replies_of, IsSamePass, IsCellOf, AreNewPasses};
ghost use Rattle.turn_cell.specs.Facts.{AreAllPasses, HoldsPass, first_passes, cell_facts};
ghost use Rattle.turn_cell.specs.Turns.{setting_at, LegalAt, IsSeatAt, Covers, KeptIn, Back, newcomer, pass_from};

use crate::object::Object;
use crate::pass::{Pass, PassSeat};
use crate::rule::TurnRule;
use crate::steps::{CellTable, absorb, make_call, split};
use crate::view::View;
use atomic_table::{Refused, Table};
use std::alloc::{AllocError, AllocFailed, Global};
use std::marker::Model;
use std::snapshot::Snapshot;
use std::sync::Wait;

type WholeTable<O> = Table<
    O,
    View<<O as Object>::Reply, Option<<O as Object>::Terms>>,
    Snapshot<O>,
    TurnRule<O>,
    Global,
>;

/// An object whose calls take turns: at most one is made at a time, and all of them stand in one history. Contracts see
/// it as `CellFacts`: which cell it is, and what is fixed of its object.
#[derive(Drop)]
pub struct TurnCell<O: Object> {
    table: Table<O, View<O::Reply, Option<O::Terms>>, Snapshot<O>, TurnRule<O>, Global>,
}

impl<O: Object> Model for TurnCell<O> {
    ghost use Rattle.std.specs.Prelude.{Option};
    ghost use Rattle.turn_cell.specs.Facts.{CellFacts, cell_facts};

    ghost Value = { CellFacts (Option O.Terms) };

    ghost use Rattle.std.specs.Prelude.{◌≡◌, ◌<◌, Some};

    ghost view = { λ c. cell_facts O.terms O.passes O.quota c.table.shared.table_id c.table.shared.key.value };

    ghost invariant = { λ c.
        (c.table.shared.table_id.words ≡ 2) × (c.table.shared.table_id.slots ≡ 1)
        × (0 < O.passes c.table.shared.key.value) };
}

impl<O: Object> TurnCell<O> {
    /// A cell over the object, and its passes: one for each number from 0, at the place of its number. If memory runs
    /// out, the object comes back as it was.
    pub fn new(alloc: Global, object: O) -> Result<(TurnCell<O>, Vec<Pass<O>>), (O, AllocError)>
        requires empty { O.history object ≡ [] }
        requires some { 0 < O.passes object }
        requires room { O.passes object * O.quota object < 2 ^ 64 }
        ensures cell { IfOk result (λ r. IsCellOf r.0 (Some (O.terms object)) (O.passes object) (O.quota object)) }
        ensures passes { IfOk result (λ r. AreNewPasses r.0 r.1.items) }
        ensures err { IfErr result (λ e. e.0 ≡ object) }
    {
        let count = object.passes();
        let Ok(mut passes) = Vec::with_capacity(alloc, count as usize) else {
            return Err((object, AllocError));
        };
        match open(alloc, object) {
            Ok((table, seat)) => {
                deal(&table.shared, seat, count, &mut passes);
                Ok((TurnCell { table }, passes))
            }
            Err(refused) => {
                passes.destroy_empty();
                Err(refused)
            }
        }
    }

    /// Makes the call once the turn is this pass's, and gives the turn back. It waits while another pass has the turn:
    /// it looks a few times whether that still is so, and then sleeps.
    pub fn call<W: Wait>(&self, rt: &W, pass: &mut Pass<O>, call: O::Call) -> O::Reply
        requires cell { pass.old.cell ≡ self.now.id }
        requires proper { O.proper call }
        requires quota { length pass.old.mine < pass.old.quota }
        ensures same { IsSamePass pass.new pass.old }
        ensures seen { StartsWith pass.new.seen pass.old.seen }
        ensures legal { LegalAt O.legal pass.new.terms pass.new.seen }
        ensures ends { EndsWith pass.new.seen result }
        ensures mine { pass.new.mine ≡ pass.old.mine ++ result ∷ [] }
        ensures owned { replies_of O.owner pass.new.number pass.new.seen ≡ pass.new.mine }
        ensures reply { (O.owner result ≡ pass.old.number) × (O.call_of result ≡ call) }
    {
        let number = pass.number;
        let reply = make_call(rt, &self.table.shared, &mut pass.seat, number, call);
        pass.made += 1;
        reply
    }

    /// Gives the object back. The passes are all of this cell, in any order.
    pub fn close(self, passes: Vec<Pass<O>>) -> O
        requires all { AreAllPasses self passes.items }
        ensures cell { IsCellOf self (Some (O.terms result)) (O.passes result) (O.quota result) }
        ensures legal { O.legal (O.terms result) (O.history result) }
        ensures passes { All (HoldsPass O.owner (O.history result)) passes.items }
        ensures owners { All (λ r. O.owner r < self.passes) (O.history result) }
    {
        let TurnCell { table } = self;
        let seat = gather(&table.shared, passes);
        finish(table, seat)
    }
}

// The table with the object in its slot, and the seat that can give every number.
fn open<O: Object>(
    alloc: Global,
    object: O,
) -> Result<(WholeTable<O>, PassSeat<O>), (O, AllocError)>
    requires empty { O.history object ≡ [] }
    requires legal { O.legal (O.terms object) [] }
    requires some { 0 < O.passes object }
    requires room { O.passes object * O.quota object < 2 ^ 64 }
    ensures ok { IfOk result (λ r.
        (r.1.table_id ≡ r.0.shared.table_id)
        × (r.0.shared.table_id.words ≡ 2) × (r.0.shared.table_id.slots ≡ 1)
        × (r.0.shared.key.value ≡ object)
        × (r.1.me ≡ (newcomer (setting_at O.terms O.passes O.quota object), []))) }
    ensures err { IfErr result (λ e. e.0 ≡ object) }
{
    let about = Snapshot::of(&object);
    let mut slots = Vec::new(alloc);
    if let Err(failed) = slots.push(object) {
        let AllocFailed { value } = failed;
        return Err((value, AllocError));
    }
    match Table::new(alloc, &[0, 0], slots, &about) {
        Ok((table, seat)) => Ok((table, seat)),
        Err(Refused { mut slots }) => match slots.pop() {
            Some(object) => Err((object, AllocError)),
            None => unreachable!(),
        },
    }
}

// One pass for each number.
fn deal<O: Object>(top: &CellTable<O>, first: PassSeat<O>, count: u32, passes: &mut Vec<Pass<O>>)
    requires table { IsSeatAt first.table_id top.now.table_id }
    requires first { first.me ≡ (newcomer (setting_at O.terms O.passes O.quota top.now.key.value), []) }
    requires count { (count ≡ O.passes top.now.key.value) × (0 < count) }
    requires room { O.passes top.now.key.value * O.quota top.now.key.value < 2 ^ 64 }
    requires empty { (passes.old.items ≡ []) × (count ≤ vec_capacity passes.old) }
    ensures { passes.new.items ≡ first_passes (cell_facts O.terms O.passes O.quota top.now.table_id top.now.key.value)
        count }
{
    let mut seat = first;
    let mut number = 0;
    while number + 1 < count {
        let next = split(top, &mut seat);
        passes.push_reserved(Pass::start(number, seat));
        seat = next;
        number += 1;
    }
    passes.push_reserved(Pass::start(number, seat));
}

// The last pass, which has taken in all others.
fn gather<O: Object>(top: &CellTable<O>, mut passes: Vec<Pass<O>>) -> PassSeat<O>
    requires table { (top.now.table_id.words ≡ 2) × (top.now.table_id.slots ≡ 1) }
    requires some { 0 < vec_len passes }
    requires here { All (λ p. p.cell ≡ top.now.table_id) passes.items }
    ensures table { result.table_id ≡ top.now.table_id }
    ensures idle { (result.me.0.holding ≡ false) × (result.me.0.live ≡ true) }
    ensures kept { All (KeptIn result.me.0) passes.items }
{
    let Some(last) = passes.pop() else {
        unreachable!()
    };
    let mut seat = last.into_seat();
    while let Some(pass) = passes.pop() {
        absorb(top, &mut seat, pass.into_seat());
    }
    passes.destroy_empty();
    seat
}

// The object, once every pass was taken in.
fn finish<O: Object>(table: WholeTable<O>, seat: PassSeat<O>) -> O
    requires table { IsSeatAt seat.table_id table.shared.table_id }
    requires all { (seat.me.0.live ≡ true) × (seat.me.0.holding ≡ false)
        × ((n : ℕ) → n < O.passes table.shared.key.value → Covers seat.me.0 n) }
    ensures { Back O.history O.owner (setting_at O.terms O.passes O.quota) (LegalAt O.legal)
        (setting_at O.terms O.passes O.quota table.shared.key.value) seat.me.0 result }
{
    let mut closed = table.close_with(seat);
    let object = closed.take(0);
    closed.free();
    object
}
