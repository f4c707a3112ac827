//! Which image calls leave.

ghost use Rattle.std.specs.Prelude.{◌≡◌, IfOk};
ghost use Rattle.durable_log.specs.Disk.{DiskState, settled};
ghost use Rattle.durable_log.specs.MemDisk.{IsPicture, filled, state_after, states_from};

use super::call::{DiskCall, write_over};
use std::alloc::{AllocError, Global};

/// What a read gives, and the image in which every byte that is not yet safe has one value.
#[derive(Drop)]
pub(crate) struct Picture {
    pub(crate) reads: Vec<u8>,
    pub(crate) image: Vec<u8>,
}

/// The picture after one call more.
fn picture_after(
    alloc: Global,
    fill: u8,
    picture: Picture,
    call: &DiskCall,
) -> Result<Picture, AllocError>
    ensures { (s : DiskState) → IsPicture fill s picture
        → IfOk result (λ p. IsPicture fill (state_after s call.now) p) }
{
    match call {
        DiskCall::Write { at, bytes, done } => {
            let bytes = bytes.as_slice();
            let fills = vec![in alloc; fill; bytes.len()]?;
            let image = write_over(alloc, &picture.image, *at, &fills)?;
            let reads = if *done {
                write_over(alloc, &picture.reads, *at, bytes)?
            } else {
                picture.reads
            };
            Ok(Picture { reads, image })
        }
        DiskCall::Sync { done: true } => {
            let image = Vec::from_slice(alloc, &picture.reads)?;
            Ok(Picture {
                reads: picture.reads,
                image,
            })
        }
        DiskCall::Sync { done: false } => Ok(picture),
    }
}

/// The image after these calls in which every byte that is not yet safe has one value.
pub(super) fn image_after(
    alloc: Global,
    first: &[u8],
    calls: &[DiskCall],
    fill: u8,
) -> Result<Vec<u8>, AllocError>
    ensures { IfOk result (λ v. v.items ≡ filled fill (states_from (settled first.now) calls.now)) }
{
    let mut picture = Picture {
        reads: Vec::from_slice(alloc, first)?,
        image: Vec::from_slice(alloc, first)?,
    };
    for call in calls {
        picture = picture_after(alloc, fill, picture, call)?;
    }
    Ok(picture.image)
}
