//! Frames of requests and replies, byte by byte.

use std::alloc::{AllocError, Global};

/// A narrow header of this kind, length, flags and process, with the peer 0.
///
/// # Errors
///
/// There isn't the memory.
pub fn header(
    alloc: Global,
    kind: u32,
    len: u16,
    flags: u16,
    process: u32,
) -> Result<Vec<u8>, AllocError> {
    let mut header = Vec::new(alloc);
    header.extend_from_slice(&kind.to_le_bytes())?;
    header.extend_from_slice(&len.to_le_bytes())?;
    header.extend_from_slice(&flags.to_le_bytes())?;
    header.extend_from_slice(&[0; 4])?;
    header.extend_from_slice(&process.to_le_bytes())?;
    Ok(header)
}

/// A narrow frame of this kind, flags, process and body, of at most 65,519 bytes.
///
/// # Errors
///
/// There isn't the memory.
pub fn frame(
    alloc: Global,
    kind: u32,
    flags: u16,
    process: u32,
    body: &[u8],
) -> Result<Vec<u8>, AllocError> {
    let len = u16::try_from(body.len()).unwrap_or(0).wrapping_add(16);
    let mut frame = header(alloc, kind, len, flags, process)?;
    frame.extend_from_slice(body)?;
    Ok(frame)
}
