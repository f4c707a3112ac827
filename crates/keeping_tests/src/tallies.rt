ghost use Rattle.std.specs.Prelude.{◌≡◌, ℕ, ◌+◌, ◌<◌, ◌≤◌, length, true, slice_index_or};
ghost use Rattle.std.specs.List.{AllWithin};
ghost use Rattle.turn_cell.specs.Facts.{IsSamePass};

use std::alloc::{AllocError, Global};
use std::sync::Wait;
use std::sync::atomic::{AtomicU64, Ordering};
use std::test::Fail;
use std::thread;
use std::thread::Threads;
use tally::{Added, Tally, call_all, make_calls};
use turn_cell::{Object, Pass, TurnCell};

// Whether two passes have these numbers, and made so many calls.
fn are_counted(passes: &[Pass<Tally>]) -> bool {
    match passes {
        [first, second] => {
            (first.number(), first.made()) == (0, 2) && (second.number(), second.made()) == (1, 1)
        }
        _ => false,
    }
}

// Whether a tally has just the calls of the worked example.
fn has_three_calls(tally: &Tally) -> bool {
    for (added, want) in tally.log.iter().zip([5, 12, 13]) {
        if added.total != want {
            return false;
        }
    }
    tally.log.len() == 3
}

// The worked example: a cell is made of an object, each pass makes its calls, and the cell is closed with all passes.
fn are_told_in_turn<W: Wait>(rt: &W, alloc: Global) -> Result<bool, AllocError> {
    let tally = Tally::new(alloc, 2, 3)?;
    let Ok((cell, mut passes)) = TurnCell::new(alloc, tally) else {
        return Err(AllocError);
    };
    let first = cell.call(rt, &mut passes[0], 5);
    let second = cell.call(rt, &mut passes[1], 7);
    let third = cell.call(rt, &mut passes[0], 1);
    let are_told = (first.total, second.total, third.total) == (5, 12, 13);
    let are_counted = are_counted(&passes);
    let tally = cell.close(passes);
    Ok(has_three_calls(&tally) && are_told && are_counted)
}

#[test]
fn one_after_the_other(rt: HostRuntime) -> Result<(), Fail> {
    assert!(&rt; are_told_in_turn(&rt, rt.alloc())?);
    Ok(())
}

// What comes of the making of a cell.
type Made = Result<(TurnCell<Tally>, Vec<Pass<Tally>>), (Tally, AllocError)>;

// Whether a cell has its passes, or else its tally came back as it was.
fn is_made_or_back(made: &Made) -> bool {
    match made {
        Ok((_, passes)) => passes.len() == 2,
        Err((tally, _)) => (tally.passes, tally.quota, tally.log.len()) == (2, 3, 0),
    }
}

// Whether a new one has, or came back.
fn is_one_made_or_back(alloc: Global) -> Result<bool, AllocError> {
    let tally = Tally::new(alloc, 2, 3)?;
    Ok(is_made_or_back(&TurnCell::new(alloc, tally)))
}

// Where an allocation fails, as by `rt try --test --fail-alloc N`, the tally comes back as it was.
#[test]
fn a_cell_has_its_passes_or_the_tally_comes_back(rt: HostRuntime) -> Result<(), Fail> {
    assert!(&rt; is_one_made_or_back(rt.alloc())?);
    Ok(())
}

// What comes of calls from threads.
type Called = Result<Tally, (Tally, AllocError)>;

// Whether the totals are 1 to 6 in the order of the history, so those of each pass rise.
fn rises_to_six(tally: &Tally) -> bool {
    for (place, added) in tally.log.iter().enumerate() {
        if added.total != place as u64 + 1 {
            return false;
        }
    }
    tally.log.len() == 6 && tally.log.iter().filter(|added| added.owner == 0).count() == 3
}

// Whether a tally came back with such calls.
fn has_six_calls(called: &Called) -> bool {
    match called {
        Ok(tally) => rises_to_six(tally),
        Err(_) => false,
    }
}

// Whether two passes make three calls each.
fn make_six_calls<R: Threads + Wait + Sync>(rt: &R, alloc: Global) -> Result<bool, AllocError> {
    let tally = Tally::new(alloc, 2, 3)?;
    Ok(has_six_calls(&call_all(rt, alloc, tally, 1, 3)))
}

#[test]
fn two_threads_of_three_calls(rt: HostRuntime) -> Result<(), Fail> {
    assert!(&rt; make_six_calls(&rt, rt.alloc())?);
    Ok(())
}

// Whether a tally came back with 80,000 calls, the last of them with this total.
fn has_all_calls(called: &Called, total: u64) -> bool {
    match called {
        Ok(tally) => match tally.log.last() {
            Some(last) => tally.log.len() == 80_000 && last.total == total,
            None => false,
        },
        Err(_) => false,
    }
}

// Whether eight passes make ten thousand calls each.
fn make_all_calls<R: Threads + Wait + Sync>(rt: &R, alloc: Global) -> Result<bool, AllocError> {
    let tally = Tally::new(alloc, 8, 10_000)?;
    Ok(has_all_calls(&call_all(rt, alloc, tally, 3, 10_000), 240_000))
}

#[test]
fn eight_threads_of_ten_thousand_calls(rt: HostRuntime) -> Result<(), Fail> {
    assert!(&rt; make_all_calls(&rt, rt.alloc())?);
    Ok(())
}

// How far the callers are: whether pass 0 holds the turn, and how many others came.
#[derive(Drop)]
struct Signs {
    held: AtomicU64,
    came: AtomicU64,
}

impl Signs {
    // Pass 0 holds the turn until all others came, and then for a while in which they fall asleep.
    fn hold(&self, others: u64) {
        self.held.store(1, Ordering::SeqCst);
        wait_for(&self.came, others);
        for _ in 0..10_000u32 {
            thread::yield_now();
        }
    }

    // Another pass comes once the turn is held.
    fn come(&self) {
        wait_for(&self.held, 1);
        self.came.fetch_add(1, Ordering::SeqCst);
    }
}

// Looks until the sign has the number, but no more than ten million times.
fn wait_for(sign: &AtomicU64, number: u64) {
    for _ in 0..10_000_000u32 {
        if sign.load(Ordering::SeqCst) >= number {
            return;
        }
        thread::yield_now();
    }
}

// A tally whose calls by pass 0 are over only when all others wait.
#[derive(Drop)]
struct Slow<'a> {
    tally: Tally,
    signs: &'a Signs,
}

impl<'a> Object for Slow<'a> {
    type Call = u8;

    type Reply = Added;

    type Terms = ();

    ghost use Rattle.std.specs.Prelude.{◌≡◌, true};
    ghost use Rattle.tally.specs.Sums.{is_running};

    ghost terms = { λ s. tt };

    ghost history = { λ s. s.tally.log.items };

    ghost passes = { λ s. s.tally.passes };

    ghost quota = { λ s. s.tally.quota };

    ghost owner = { λ r. r.owner };

    ghost call_of = { λ r. r.call };

    ghost proper = { λ c. Unit {0} };

    ghost legal = { λ t log. is_running 0 log ≡ true };

    fn apply(&mut self, who: u32, call: u8) -> Added {
        if who == 0 {
            self.signs.hold(self.tally.passes() as u64 - 1);
        }
        self.tally.apply(who, call)
    }

    fn passes(&self) -> u32 {
        self.tally.passes()
    }

    fn quota(&self) -> u64 {
        self.tally.quota()
    }
}

// Each pass makes the call once, all others while pass 0 has the turn.
fn call_while_held<O: Object, R: Threads + Wait + Sync>(
    rt: &R,
    cell: &TurnCell<O>,
    signs: &Signs,
    passes: &mut [Pass<O>],
    call: O::Call,
)
where
    O::Call: Copy + Sync,
    requires cell { AllWithin (λ p. p.cell ≡ cell.now.id) passes.old 0 (length passes.old) }
    requires proper { O.proper call }
    requires quota { AllWithin (λ p. length p.mine + 1 ≤ p.quota) passes.old 0 (length passes.old) }
    ensures same { (k : ℕ) (d : _) → k < length passes.old →
        IsSamePass (slice_index_or passes.new k d) (slice_index_or passes.old k d) }
{
    thread::for_each_mut(
        rt,
        passes,
        64,
        &|place, pass: &mut Pass<O>|
            requires proper { O.proper call }
            requires cell { (pass.old.cell ≡ cell.now.id) × (length pass.old.mine + 1 ≤ pass.old.quota) }
            ensures same { IsSamePass pass.new pass.old }
        {
            if place > 0 {
                signs.come();
            }
            make_calls(rt, cell, pass, call, 1)
        },
    );
}

// Whether a tally has eight calls, of which the first is that of pass 0.
fn has_eight_calls(tally: &Tally) -> bool {
    for (place, added) in tally.log.iter().enumerate() {
        if (added.total, added.owner == 0) != (place as u64 + 1, place == 0) {
            return false;
        }
    }
    tally.log.len() == 8
}

// Whether all get the turn while these signs tell of them.
fn all_get_it<R: Threads + Wait + Sync>(
    rt: &R,
    alloc: Global,
    signs: &Signs,
) -> Result<bool, AllocError> {
    let tally = Tally::new(alloc, 8, 1)?;
    let slow = Slow { tally, signs };
    let Ok((cell, mut passes)) = TurnCell::new(alloc, slow) else {
        return Err(AllocError);
    };
    call_while_held(rt, &cell, signs, &mut passes, 1);
    let slow = cell.close(passes);
    Ok(has_eight_calls(&slow.tally))
}

// One thread holds the turn while seven wait for it, and all get it.
#[test]
fn seven_wait_for_one(rt: HostRuntime) -> Result<(), Fail> {
    let signs = Signs {
        held: AtomicU64::new(0),
        came: AtomicU64::new(0),
    };
    assert!(&rt; all_get_it(&rt, rt.alloc(), &signs)?);
    assert!(&rt; signs.came.load(Ordering::SeqCst) == 7);
    Ok(())
}
