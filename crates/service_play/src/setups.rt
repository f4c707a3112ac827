//! The files that a run reads: a setup of bob, and word lists.

use std::alloc::{AllocError, Global};

/// The lines of a setup for one worker and 64 requests a session.
pub const ONE: &str = "workers = 1
    requests = 64";

/// The rest of a setup of bob, whose chain is at 1 (RFC 2289, `This is a test.`, SHA-1).
const BOB: &str = "
    socket = \"s\"
    launcher = \"l\"
    vault = \"v\"
    words = \"list\"
    banner = \"OTP login\"
    connections = 4
    tries = 3
    hold = 30000
    [[account]]
    name = \"bob\"
    uid = 1001
    algorithm = \"sha1\"
    seed = \"test\"
    sequence = 1
    password = \"63d936639734385b\"
    grants = [{ name = \"notes\", mode = 3 }]
";

/// A setup of bob that begins with these lines.
///
/// # Errors
///
/// There isn't the memory.
pub fn setup_with(alloc: Global, lines: &str) -> Result<Vec<u8>, AllocError> {
    let mut setup = Vec::new(alloc);
    setup.extend_from_slice(lines.as_bytes())?;
    setup.extend_from_slice(BOB.as_bytes())?;
    Ok(setup)
}

/// So many lines of a word list, at most 2,048: four letters a line.
///
/// # Errors
///
/// There isn't the memory.
pub fn word_list(alloc: Global, lines: u16) -> Result<Vec<u8>, AllocError> {
    let mut list = Vec::new(alloc);
    for line in 0..lines {
        let place = line % 2_048;
        list.push(b'Q')?;
        list.push(b'A' + (place / 256) as u8)?;
        list.push(b'A' + (place / 16 % 16) as u8)?;
        list.push(b'A' + (place % 16) as u8)?;
        list.push(b'\n')?;
    }
    Ok(list)
}
