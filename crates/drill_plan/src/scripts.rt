//! What the children of a drill say.

ghost use Rattle.std.specs.Prelude.{◌≡◌, ◌<◌, ◌≤◌, IfOk, if◌then◌else◌};
ghost use Rattle.request_catalogue.specs.TextBytes.{name_bytes};
ghost use Rattle.outside_memory.specs.Script.{plan_of};
ghost use Rattle.drill_plan.specs.Classes.{is_login};
ghost use Rattle.drill_plan.specs.Plan.{drill_plan, early_bytes_by, requests_bytes};
ghost use Rattle.drill_plan.specs.Requests.{user_requests_by};

use crate::class::Class;
use crate::early::{Login, early_bytes};
use crate::passwords::{own_name, own_passwords};
use crate::pen::Pen;
use crate::user::user_bytes;
use outside::Bytes;
use outside_memory::Script;
use std::alloc::{AllocError, Global};

/// The scripts of a worker's connections in the drill of `n`, from which its post is made: `8 * n` of them.
/// The clients say nothing.
///
/// # Errors
///
/// There isn't the memory.
pub fn drill_scripts(alloc: Global, n: u32, worker: u32) -> Result<Vec<Script>, AllocError>
    requires number { n ≤ 64 }
    requires workers { worker < 4 }
    ensures { IfOk result (λ scripts. plan_of scripts.items ≡ drill_plan n worker) }
{
    let passwords = own_passwords(alloc, n, worker)?;
    let user = own_name(worker);
    let mut pen = Pen::new(alloc)?;
    let mut scripts = Vec::new(alloc);
    let mut logins = 0;
    for session in 0..8 * n {
        let class = Class::of(n, worker, session);
        let left = (8 * n - logins) as usize;
        let login = Login {
            user,
            current: passwords[left],
            right: passwords[left - 1],
        };
        scripts.push(script(alloc, &mut pen, class, &login)?)?;
        logins += login_count(class);
    }
    Ok(scripts)
}

/// What the other sides of a connection say in a session of this class.
fn script(alloc: Global, pen: &mut Pen, class: Class, login: &Login) -> Result<Script, AllocError>
    ensures pre { let l = login.now in IfOk result (λ script. script.pre ≡ early_bytes_by (name_bytes l.user) l.current
        l.right class) }
    ensures user { IfOk result (λ script. script.user ≡ requests_bytes (user_requests_by class)) }
{
    let pre = early_bytes(alloc, pen, class, login)?;
    let user = user_bytes(alloc, pen, class)?;
    Ok(Script {
        client: Bytes::from(Vec::new(alloc)),
        pre: Bytes::from(pre),
        user: Bytes::from(user),
    })
}

/// 1 for a session that logs in, and 0 for any other.
fn login_count(class: Class) -> u32
    ensures { result ≡ (if is_login class then 1 else 0) }
{
    match class {
        Class::LogsIn => 1,
        _ => 0,
    }
}
