// The steps of a cell, on its table and a seat.
ghost use Rattle.std.specs.Prelude.{◌≡◌, ℕ, ◌<◌, [], ◌∷◌, length, true, false, MatchBool};
ghost use Rattle.turn_cell.specs.Facts.{replies_of};
ghost use Rattle.turn_cell.specs.Turns.{setting_at, LegalAt, IsSeatAt, IsIdle, IsSingle, HasTurn, HasReply, Counted};
ghost use Rattle.turn_cell.specs.Turns.{IsCounted, Gave, MadeCall, kept_of, given_of, joined};

use crate::object::Object;
use crate::pass::PassSeat;
use crate::rule::{Counting, Giving, Joining, Splitting, Taking, TurnRule};
use crate::view::View;
use atomic_table::Shared;
use std::snapshot::Snapshot;
use std::sync::Wait;
use std::thread;

pub(crate) type CellTable<O> = Shared<
    O,
    View<<O as Object>::Reply, Option<<O as Object>::Terms>>,
    Snapshot<O>,
    TurnRule<O>,
>;

// The two words of the table.
const TURN: usize = 0;

const COUNT: usize = 1;

// What the turn's word may be: the turn is free; a pass has it; a pass has it, and others may sleep until it is given
// back.
const FREE: u64 = 0;

const HELD: u64 = 1;

const AWAITED: u64 = 2;

// How often a caller tries to take the turn before it sleeps.
const TRIES: u32 = 8;

// Takes the turn if it is free, and leaves this in its word.
fn try_take<O: Object>(top: &CellTable<O>, seat: &mut PassSeat<O>, word: u64) -> bool
    requires word { 0 < word }
    requires table { IsSeatAt seat.old.table_id top.now.table_id }
    requires idle { IsIdle seat.old.me }
    ensures table { seat.new.table_id ≡ seat.old.table_id }
    ensures took { MatchBool result
        (HasTurn O.history O.owner (setting_at O.terms O.passes O.quota) (LegalAt O.legal) seat.old.me seat.new.me)
        (seat.new.me ≡ seat.old.me) }
{
    top.compare_exchange::<Taking<O>>(seat, TURN, FREE, word) == FREE
}

// Takes the turn if it is free, and says in its word that it is awaited in any case.
fn take_or_await<O: Object>(top: &CellTable<O>, seat: &mut PassSeat<O>) -> bool
    requires table { IsSeatAt seat.old.table_id top.now.table_id }
    requires idle { IsIdle seat.old.me }
    ensures table { seat.new.table_id ≡ seat.old.table_id }
    ensures took { MatchBool result
        (HasTurn O.history O.owner (setting_at O.terms O.passes O.quota) (LegalAt O.legal) seat.old.me seat.new.me)
        (seat.new.me ≡ seat.old.me) }
{
    top.swap::<Taking<O>>(seat, TURN, AWAITED) == FREE
}

// Tries a few times to take the turn, and lets other threads run after each try.
fn try_often<O: Object>(top: &CellTable<O>, seat: &mut PassSeat<O>, word: u64) -> bool
    requires word { 0 < word }
    requires table { IsSeatAt seat.old.table_id top.now.table_id }
    requires idle { IsIdle seat.old.me }
    ensures table { seat.new.table_id ≡ seat.old.table_id }
    ensures took { MatchBool result
        (HasTurn O.history O.owner (setting_at O.terms O.passes O.quota) (LegalAt O.legal) seat.old.me seat.new.me)
        (seat.new.me ≡ seat.old.me) }
{
    for _ in 0..TRIES {
        if top.peek(TURN) == FREE && try_take(top, seat, word) {
            return true;
        }
        thread::yield_now();
    }
    false
}

// Takes the turn. Who gives it back wakes one of those who sleep where its word says that it is awaited. The one who
// was woken says so again, since others may sleep still.
fn take<O: Object, W: Wait>(rt: &W, top: &CellTable<O>, seat: &mut PassSeat<O>)
    requires table { IsSeatAt seat.old.table_id top.now.table_id }
    requires idle { IsIdle seat.old.me }
    ensures table { seat.new.table_id ≡ seat.old.table_id }
    ensures took { HasTurn O.history O.owner (setting_at O.terms O.passes O.quota) (LegalAt O.legal) seat.old.me
        seat.new.me }
{
    if try_take(top, seat, HELD) || try_often(top, seat, HELD) {
        return;
    }
    for _ in rt.forever() {
        if take_or_await(top, seat) {
            return;
        }
        top.park(rt, TURN, AWAITED as u32);
        if try_often(top, seat, AWAITED) {
            return;
        }
    }
    unreachable!()
}

// Counts the reply that the object gave.
fn count<O: Object>(top: &CellTable<O>, seat: &mut PassSeat<O>)
    requires table { IsSeatAt seat.old.table_id top.now.table_id }
    requires reply { HasReply O.history O.owner (setting_at O.terms O.passes O.quota) (LegalAt O.legal) seat.old.me }
    ensures table { seat.new.table_id ≡ seat.old.table_id }
    ensures counted { Counted O.history O.owner (setting_at O.terms O.passes O.quota) (LegalAt O.legal) seat.old.me
        seat.new.me }
{
    top.fetch_add::<Counting<O>>(seat, COUNT, 1);
}

// Gives the turn back, and wakes one who sleeps until then.
fn give<O: Object>(top: &CellTable<O>, seat: &mut PassSeat<O>)
    requires table { IsSeatAt seat.old.table_id top.now.table_id }
    requires counted { IsCounted O.history O.owner (setting_at O.terms O.passes O.quota) (LegalAt O.legal) seat.old.me }
    ensures table { seat.new.table_id ≡ seat.old.table_id }
    ensures gave { Gave O.history O.owner (setting_at O.terms O.passes O.quota) (LegalAt O.legal) seat.old.me
        seat.new.me }
{
    if top.swap::<Giving<O>>(seat, TURN, FREE) == AWAITED {
        top.wake_one(TURN);
    }
}

// Takes the turn, makes one call, and gives the turn back.
pub(crate) fn make_call<O: Object, W: Wait>(
    rt: &W,
    top: &CellTable<O>,
    seat: &mut PassSeat<O>,
    number: u32,
    call: O::Call,
) -> O::Reply
    requires table { IsSeatAt seat.old.table_id top.now.table_id }
    requires idle { (seat.old.me.0.holding ≡ false) × (seat.old.me.1 ≡ []) × IsSingle seat.old.me.0 }
    requires number { seat.old.me.0.number ≡ number }
    requires proper { O.proper call }
    requires quota { length seat.old.me.0.mine < seat.old.me.0.quota }
    ensures table { seat.new.table_id ≡ seat.old.table_id }
    ensures made { MadeCall O.history O.owner (setting_at O.terms O.passes O.quota) (LegalAt O.legal) seat.old.me result
        seat.new.me }
    ensures reply { (O.owner result ≡ number) × (O.call_of result ≡ call) }
{
    take(rt, top, seat);
    let reply = seat.slot_mut(top, 0).apply(number, call);
    count(top, seat);
    give(top, seat);
    reply
}

// A new pass, of the next number, which can give all that are left.
pub(crate) fn split<O: Object>(top: &CellTable<O>, seat: &mut PassSeat<O>) -> PassSeat<O>
    requires table { IsSeatAt seat.old.table_id top.now.table_id }
    requires some_left { (seat.old.me.0.holding ≡ false) × (seat.old.me.0.from < seat.old.me.0.until) }
    ensures table { (seat.new.table_id ≡ seat.old.table_id) × (result.table_id ≡ seat.old.table_id) }
    ensures views { (seat.new.me ≡ (kept_of seat.old.me.0, seat.old.me.1))
        × (result.me ≡ (given_of seat.old.me.0, [])) }
{
    top.split_seat::<Splitting>(seat)
}

// Takes a pass in.
pub(crate) fn absorb<O: Object>(top: &CellTable<O>, seat: &mut PassSeat<O>, other: PassSeat<O>)
    requires table { (seat.old.table_id ≡ top.now.table_id) × (other.table_id ≡ top.now.table_id)
        × (top.now.table_id.words ≡ 2) × (top.now.table_id.slots ≡ 1) }
    requires idle { (seat.old.me.0.holding ≡ false)
        × (other.me.0.holding ≡ false) × (other.me.0.live ≡ true) × (other.me.1 ≡ []) }
    ensures table { seat.new.table_id ≡ seat.old.table_id }
    ensures view { seat.new.me ≡ (joined seat.old.me.0 other.me.0, seat.old.me.1) }
{
    top.join_seat::<Joining>(seat, other);
}
