//! What the users' children say.

ghost use Rattle.std.specs.Prelude.{◌≡◌, IfOk, codes};
ghost use Rattle.request_catalogue.specs.TextBytes.{label_bytes};
ghost use Rattle.drill_plan.specs.declared.class.Class.TheVariants.{LogsIn};
ghost use Rattle.drill_plan.specs.Plan.{requests_bytes};
ghost use Rattle.drill_plan.specs.Requests.{user_requests_by};

use crate::class::Class;
use crate::pen::Pen;
use request_catalogue::{Label, Request};
use std::alloc::{AllocError, Global};

/// What the user's child says in a session of this class; nothing where no user is logged in.
pub fn user_bytes(alloc: Global, pen: &mut Pen, class: Class) -> Result<Vec<u8>, AllocError>
    ensures { IfOk result (λ bytes. bytes.items ≡ requests_bytes (user_requests_by class)) }
{
    match class {
        Class::LogsIn => file_bytes(alloc, pen),
        _ => Ok(Vec::new(alloc)),
    }
}

/// What a child says that uses its user's file.
fn file_bytes(alloc: Global, pen: &mut Pen) -> Result<Vec<u8>, AllocError>
    ensures { IfOk result (λ bytes. bytes.items ≡ requests_bytes (user_requests_by LogsIn)) }
{
    let mut bytes = Vec::new(alloc);
    pen.put(&mut bytes, &Request::Import)?;
    pen.put(
        &mut bytes,
        &Request::OpenFile {
            mode: 3,
            name: notes(),
        },
    )?;
    pen.put(
        &mut bytes,
        &Request::WriteAt {
            handle: 1,
            offset: 0,
            bytes: b"drill",
        },
    )?;
    pen.put(
        &mut bytes,
        &Request::ReadAt {
            handle: 1,
            offset: 0,
            max: 16,
        },
    )?;
    pen.put(&mut bytes, &Request::CloseFile { handle: 1 })?;
    pen.put(&mut bytes, &Request::Finish)?;
    Ok(bytes)
}

/// The label of each user's file.
pub fn notes() -> Label
    ensures { label_bytes result ≡ codes "notes" }
{
    match Label::of(b"notes") {
        Some(label) => label,
        None => unreachable!(),
    }
}
