//! What the shipped children send over a link on which the monitor's replies came.

ghost use Rattle.std.specs.Prelude.{◌≡◌, ◌≢◌, false, IfOk};
ghost use Rattle.child_protocol.specs.Stands.{IsNew, role_in};
ghost use Rattle.welcome_laws.specs.Shipped.{IsSaidWhole, role_session, shipped_role};

use child_protocol::{Child, ChildEnd, run_child};
use imsg_frame::Reader;
use outside::Role;
use outside_memory::MemStream;
use request_catalogue::Width;
use std::alloc::{AllocError, Global};

/// Whether a run ended because its link failed.
fn has_failed(end: ChildEnd) -> bool
    ensures { result ≡ false → end ≢ ChildEnd.LinkFault }
{
    matches!(end, ChildEnd::LinkFault)
}

/// What a child sends that is sent these replies.
fn said_by(alloc: Global, child: &mut Child, replies: &[u8]) -> Result<Vec<u8>, AllocError>
    requires { IsNew child.old }
    ensures { IfOk result (λ said. IsSaidWhole (role_in child.old) child.old.session replies.now said.items) }
{
    let mut link = MemStream::new(alloc, replies, &[4_096], &[])?;
    let mut reader = Reader::new(alloc, Width::Narrow, Width::Narrow.frame_max())?;
    let mut out = vec![in alloc; 0; 16_384]?;
    let end = run_child(child, &mut link, &mut reader, &mut out);
    if has_failed(end) || !link.tells() {
        return Err(AllocError);
    }
    let said = Vec::from_slice(alloc, link.sent())?;
    Ok(said)
}

/// What the shipped child of this role sends, that is sent these replies and no more.
///
/// # Errors
///
/// There isn't the memory.
pub fn said_by_shipped(alloc: Global, role: &Role, replies: &[u8]) -> Result<Vec<u8>, AllocError>
    ensures { IfOk result (λ said. IsSaidWhole (shipped_role role.now) (role_session role.now) replies.now said.items) }
{
    match *role {
        Role::Pre { session } => said_by(alloc, &mut Child::pre(session), replies),
        Role::User { session, uid, user } => {
            said_by(alloc, &mut Child::user(session, uid, user), replies)
        }
    }
}
