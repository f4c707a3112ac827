//! Whether the children of a post are the shipped ones.

ghost use Rattle.std.specs.Prelude.{◌≡◌, true, IfOk};
ghost use Rattle.std.specs.List.{AllByRecursion};
ghost use Rattle.outside.specs.Scene.{bytes_for};
ghost use Rattle.welcome_rows.specs.Met.{IsShippedTalk};

use outside::{Role, Talk};
use outside_memory::Script;
use service_rows::said_by_shipped;
use std::alloc::{AllocError, Global};

/// What the child of this role has to send, of those of a connection.
fn planned<'a>(script: &'a Script, role: &Role) -> &'a [u8]
    ensures { result.now ≡ bytes_for role.now (script.now.pre, script.now.user) }
{
    match role {
        Role::Pre { .. } => script.pre.as_slice(),
        Role::User { .. } => script.user.as_slice(),
    }
}

/// Whether a child has to send what the shipped one says to what it was sent.
fn is_shipped(alloc: Global, script: &Script, talk: &Talk) -> Result<bool, AllocError>
    ensures { IfOk result (λ yes. yes ≡ true
        → IsShippedTalk (script.now.pre, script.now.user) talk.now) }
{
    let said = said_by_shipped(alloc, &talk.role, talk.sent.as_slice())?;
    Ok(said.as_slice() == planned(script, &talk.role))
}

/// Whether each child of a connection has to send what the shipped one says to what it was sent.
///
/// # Errors
///
/// There isn't the memory.
pub fn are_shipped(alloc: Global, script: &Script, talks: &[Talk]) -> Result<bool, AllocError>
    ensures { IfOk result (λ yes. yes ≡ true
        → AllByRecursion (IsShippedTalk (script.now.pre, script.now.user)) talks.now) }
{
    for talk in talks {
        if !is_shipped(alloc, script, talk)? {
            return Ok(false);
        }
    }
    Ok(true)
}
