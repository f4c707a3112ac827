ghost use Rattle.std.specs.Prelude.{◌≡◌, ◌≤◌, length};
ghost use Rattle.outside.specs.Scene.{bytes_at};
ghost use Rattle.outside_memory.specs.Script.{plan_of};

use outside::{Bytes, Role};

/// What the other sides of one connection send.
#[derive(Drop)]
pub struct Script {
    /// What the client sends.
    pub client: Bytes,
    /// What the child before the login sends.
    pub pre: Bytes,
    /// What the user's child sends.
    pub user: Bytes,
}

/// The bytes for a child of this role in the last of so many connections; none without a
/// connection.
pub(crate) fn planned(scripts: &[Script], came: usize, role: Role) -> &[u8]
    requires { came ≤ length scripts.now }
    ensures { result.now ≡ bytes_at role (plan_of scripts.now) came }
{
    if came == 0 {
        return &[];
    }
    let script = &scripts[came - 1];
    match role {
        Role::Pre { .. } => script.pre.as_slice(),
        Role::User { .. } => script.user.as_slice(),
    }
}
