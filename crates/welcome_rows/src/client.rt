//! What the acts of a post show of the client and of files.

ghost use Rattle.std.specs.Prelude.{◌≡◌, ◌≤◌, ◌<◌, ◌+◌, ◌*◌, ◌++◌, true, ℕ, List, [], ◌∷◌, IfOk, count_by, length};
ghost use Rattle.std.specs.List.{list_all};
ghost use Rattle.request_catalogue.specs.TextBytes.{name_bytes};
ghost use Rattle.outside.specs.declared.act.Act.{Act};
ghost use Rattle.outside.specs.Scene.{came_count, is_coming};
ghost use Rattle.welcome_laws.specs.Client.{AgreesWith, ClientSays, is_receiving};
ghost use Rattle.welcome_rows.specs.Met.{earlier_of, goes_well, wishes_of};

use crate::serving::Visit;
use outside::{Accepted, Act};
use std::alloc::{AllocError, Global};

/// How many requests a login makes besides those that wait for bytes of the client.
const BESIDES: usize = 8;

/// How often bytes of the client were waited for.
fn receivings(acts: &[Act]) -> usize
    ensures { result ≡ count_by is_receiving acts.now }
{
    acts.iter().filter(|act| is_receiving(act)).count()
}

/// Whether bytes of the client were waited for.
fn is_receiving(act: &Act) -> bool
    ensures { result ≡ is_receiving act.now }
{
    matches!(act, Act::ConnRecv { .. })
}

/// How many requests the lines before a login take.
fn earlier_requests(mistyped: &[u8]) -> usize
    ensures value { (name : List ℕ) → result ≡ 2 * length (earlier_of name mistyped.now) }
    ensures bound { result ≤ 6 }
{
    if mistyped.is_empty() { 0 } else { 6 }
}

/// How many requests the files take that a client wants.
fn file_requests(wants_files: bool) -> usize
    ensures value { result ≡ 4 * length (wishes_of wants_files) }
    ensures bound { result ≤ 8 }
{
    if wants_files { 8 } else { 0 }
}

/// Whether a session with so many requests may wait for the bytes of a visit's client as often as it did.
pub fn are_few(requests: u32, visit: &Visit, acts: &[Act]) -> bool
    ensures { result ≡ true
        → count_by is_receiving acts.now + 2 * length (earlier_of (name_bytes visit.now.user) visit.now.mistyped) + 8
        + 4 * length (wishes_of visit.now.wants_files) ≤ requests }
{
    let earlier = earlier_requests(visit.mistyped.as_slice());
    let files = file_requests(visit.wants_files);
    receivings(acts).saturating_add(earlier + BESIDES + files) <= requests as usize
}

/// Whether an operation on a file didn't fail or bring more than was asked for. Any other operation goes well.
fn goes_well(act: &Act) -> bool
    ensures { result ≡ goes_well act.now }
{
    match act {
        Act::VaultRead {
            max,
            outcome: Ok(bytes),
            ..
        } => bytes.as_slice().len() <= *max,
        Act::VaultRead {
            outcome: Err(_),
            ..
        }
        | Act::VaultWrite {
            outcome: Err(_),
            ..
        } => false,
        _ => true,
    }
}

/// Whether no operation on a file failed or brought more than was asked for.
pub fn files_go_well(acts: &[Act]) -> bool
    ensures { result ≡ list_all goes_well acts.now }
{
    acts.iter().all(|act| goes_well(act))
}

/// How many connections came.
pub fn comings(acts: &[Act]) -> usize
    ensures { result ≡ came_count acts.now }
{
    acts.iter().filter(|act| is_coming(act)).count()
}

/// Whether the operation is an accept by which a connection came.
fn is_coming(act: &Act) -> bool
    ensures { result ≡ is_coming act.now }
{
    matches!(
        act,
        Act::Accept {
            outcome: Accepted::Came
        }
    )
}

/// Whether the bytes are a first part of the lines, or begin with them.
fn agrees(lines: &[u8], said: &[u8]) -> bool
    ensures { result ≡ true → AgreesWith lines.now said.now }
{
    lines.starts_with(said) || said.starts_with(lines)
}

/// Whether what was received goes on with the lines, after what was said before.
fn goes_on(lines: &[u8], said: &mut Vec<u8>, max: usize, bytes: &[u8]) -> Result<bool, AllocError>
    ensures { IfOk result (λ yes. (said.new.items ≡ said.old.items ++ bytes.now) × (yes ≡ true
        → (1 ≤ length bytes.now) × (length bytes.now ≤ max) × AgreesWith lines.now said.new.items)) }
{
    said.extend_from_slice(bytes)?;
    Ok(1 <= bytes.len() && bytes.len() <= max && agrees(lines, said))
}

/// Whether the client says these lines in an act, after what it said before.
fn says(lines: &[u8], said: &mut Vec<u8>, act: &Act) -> Result<bool, AllocError>
    ensures { IfOk result (λ yes. yes ≡ true → (later : List Act)
        → ClientSays lines.now said.new.items later → ClientSays lines.now said.old.items (act.now ∷ later)) }
{
    match act {
        Act::ConnRecv {
            max,
            outcome: Ok(bytes),
        } => goes_on(lines, said, *max, bytes.as_slice()),
        Act::ConnRecv {
            outcome: Err(_),
            ..
        }
        | Act::ConnSend {
            outcome: Err(_),
            ..
        } => Ok(false),
        _ => Ok(true),
    }
}

/// Whether the client says these lines, with anything after them, and no call on its connection fails.
///
/// # Errors
///
/// There isn't the memory.
pub fn client_says(alloc: Global, lines: &[u8], acts: &[Act]) -> Result<bool, AllocError>
    ensures { IfOk result (λ yes. yes ≡ true → ClientSays lines.now [] acts.now) }
{
    let mut said = Vec::new(alloc);
    for act in acts {
        if !says(lines, &mut said, act)? {
            return Ok(false);
        }
    }
    Ok(true)
}
