//! A run at a site.

ghost use Rattle.std.specs.Prelude.{◌≡◌, ◌≤◌, [], ◌∷◌, IfErr, IfOk, map};
ghost use Rattle.monitor_book.specs.Lines.{held_by};
ghost use Rattle.monitor_run.specs.Headline.{RunPromises};
ghost use Rattle.monitor_run.specs.Posts.{seen};
ghost use Rattle.otp_ledger.specs.Standing.{StandsFor};
ghost use Rattle.outside.specs.Told.{Gains, Rose};
ghost use Rattle.policy_model.specs.Journal.{kept_events};
ghost use Rattle.serve_mode.specs.Headline.{setup_place};
ghost use Rattle.serve_mode.specs.Steps.{IsNotServed, service_by};

use crate::house::House;
use monitor_run::{Ran, prepare, run};
use outside::{Failed, Place, Sink, Site, Word};
use policy_model::Setup;
use service_reading::Information;
use std::alloc::{AllocError, Global};
use std::sync::Wait;
use std::thread::Threads;
use trouble::{ServeFault, Trouble};

/// What the site listens at, as the setup says.
fn place_of(alloc: Global, setup: &Setup) -> Result<Place, AllocError>
    ensures place { IfOk result (λ place. place ≡ setup_place setup.now) }
    ensures some { IfOk result (λ _. 1 ≤ setup.now.workers) }
{
    Ok(Place {
        socket: Word::of(alloc, setup.socket().as_bytes())?,
        launcher: Word::of(alloc, setup.launcher().as_bytes())?,
        vault: Word::of(alloc, setup.vault().as_bytes())?,
        workers: setup.workers(),
    })
}

/// Takes all memory of a run, listens, and serves.
///
/// # Errors
///
/// There isn't the memory, or the site could not listen: the log comes back.
pub(crate) fn serve<I: Information + Sync, S: Site, K: Sink, R: Threads + Wait + Sync>(
    rt: &R,
    alloc: Global,
    house: &House<'_, I>,
    site: &mut S,
    log: K,
) -> Result<Ran<S::Post, K>, (Trouble, K)>
    ensures promises { IfOk result
        (λ ran. RunPromises (service_by house.now.setup house.now.dictionary (I.forms house.now.information.now))
        ran.accept_failed ran.journal.items (map (seen S.Post.scene S.Post.faults) ran.posts.items)
        (held_by K.held K.lengths log) (held_by K.held K.lengths ran.log) (K.faults log) (K.faults ran.log)) }
    ensures some { IfOk result (λ _. 1 ≤ house.now.setup.workers) }
    ensures setup { IfOk result (λ ran. ran.core.ledger.setup ≡ house.now.setup) }
    ensures ledger { IfOk result (λ ran. StandsFor ran.core.ledger (kept_events ran.journal.items)) }
    ensures listens { IfOk result (λ ran. Gains (S.listens site.old) (setup_place house.now.setup ∷ [])
        (S.listens site.new)) }
    ensures error { IfErr result (λ e. IsNotServed e.0 (S.listens site.old) (S.listens site.new)
        (held_by K.held K.lengths log) (held_by K.held K.lengths e.1) (K.faults log) (K.faults e.1)
        (Rose (S.listen_faults site.old) (S.listen_faults site.new))) }
{
    let Ok(place) = place_of(alloc, &house.setup) else {
        return Err((Trouble::OutOfMemory, log));
    };
    match prepare(alloc, house, log) {
        Ok(prepared) => match site.listen(&place) {
            Ok(posts) => Ok(run(rt, prepared, posts)),
            Err(Failed) => Err((
                Trouble::Serving(ServeFault::ListenFailed),
                prepared.give_up(),
            )),
        },
        Err(log) => Err((Trouble::OutOfMemory, log)),
    }
}
