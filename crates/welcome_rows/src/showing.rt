//! That a session comes to log in, and so is welcomed.

ghost use Rattle.std.specs.Prelude.{◌≡◌, true, IfOk, IfSome, slice_get};
ghost use Rattle.welcome_rows.specs.Met.{IsMetInActs, IsMetInJournal};
ghost use Rattle.welcome_rows.specs.Shown.{GetsIn, HasServed, service_by};

use crate::client::{are_few, client_says, comings, files_go_well};
use crate::house::House;
use crate::journal::{asks_alone, asks_only, is_whole, tells_each_line};
use crate::lines::{are_typed, visit_lines};
use crate::serving::{Served, Visit};
use crate::shipped::are_shipped;
use crate::user::can_log_in;
use outside::{Act, Talk};
use policy_model::{Event, Setup};
use std::alloc::{AllocError, Global};

/// Whether a journal meets the premises of a visit's login, and of the files that it wants.
pub fn is_met_in_journal(house: &House, journal: &[Event], visit: &Visit) -> bool
    ensures { result ≡ true → IsMetInJournal house.now.setup journal.now visit.now }
{
    if !is_whole(journal) || !asks_alone(&visit.user, journal) {
        return false;
    }
    if !asks_only(&visit.user, visit.mistyped.as_slice(), journal)
        || !tells_each_line(visit, journal)
    {
        return false;
    }
    can_log_in(&house.setup, &house.dictionary, visit)
}

/// Whether the acts and the talks of a post meet the premises of a visit's login, and of the files that it
/// wants.
///
/// # Errors
///
/// There isn't the memory.
pub fn is_met_in_acts(
    alloc: Global,
    setup: &Setup,
    visit: &Visit,
    acts: &[Act],
    talks: &[Talk],
) -> Result<bool, AllocError>
    ensures { IfOk result (λ yes. yes ≡ true → IsMetInActs setup.now visit.now acts.now talks.now) }
{
    let mistyped = visit.mistyped.as_slice();
    let response = visit.response.as_slice();
    let lines = visit_lines(alloc, visit)?;
    if !are_typed(setup.parts().tries, mistyped, response) || comings(acts) != 1 {
        return Ok(false);
    }
    if !are_few(setup.requests(), visit, acts) || !files_go_well(acts) {
        return Ok(false);
    }
    Ok(client_says(alloc, &lines, acts)? && are_shipped(alloc, &visit.script, talks)?)
}

/// Whether the session of this worker meets all premises of the laws that its user gets in and is served the
/// files that it wants.
///
/// # Errors
///
/// There isn't the memory.
pub fn gets_in(
    alloc: Global,
    house: &House,
    visits: &[Visit],
    served: &Served,
    worker: usize,
) -> Result<bool, AllocError>
    requires { HasServed (service_by house.now.setup house.now.dictionary) visits.now served.now.journal.items
        served.now.posts.items }
    ensures { IfOk result (λ yes. yes ≡ true → IfSome (slice_get visits.now worker) (λ visit.
        GetsIn (service_by house.now.setup house.now.dictionary) served.now.journal.items worker visit)) }
{
    let (Some(visit), Some(post)) = (visits.get(worker), served.posts.get(worker)) else {
        return Ok(false);
    };
    if !post.tells() || !is_met_in_journal(house, &served.journal, visit) {
        return Ok(false);
    }
    is_met_in_acts(alloc, &house.setup, visit, post.acts(), post.talks())
}
