//! What can be read off a run that came to its end.

use account_file::{SetupError, read_setup};
use decision_log::line;
use outside::{Act, Files, Place, Word};
use outside_memory::{MemFiles, MemPost};
use policy_model::{Decision, Event, Setup};
use std::alloc::{AllocError, Global};
use std::test::Fail as Fault;

/// Whether there is a place and it has this socket, launcher and vault, and so many workers.
pub fn is_at(place: &Option<Place>, texts: [&str; 3], workers: u32) -> bool {
    match place {
        Some(place) => {
            place.socket.as_str() == texts[0]
                && place.launcher.as_str() == texts[1]
                && place.vault.as_str() == texts[2]
                && place.workers == workers
        }
        None => false,
    }
}

/// What stands in the setup's file after a run, of at most 4,096 bytes.
///
/// # Errors
///
/// There isn't the memory, or there is no such file.
pub fn setup_in(alloc: Global, files: &mut MemFiles) -> Result<Vec<u8>, Fault> {
    let name = Word::of(alloc, b"setup")?;
    let mut buf = vec![in alloc; 0; 4_096]?;
    let Ok(Some(len)) = files.read(&name, 0, &mut buf) else {
        return Err(Fault::from("a file"));
    };
    buf.truncate(len);
    Ok(buf)
}

/// The sequence and the password of the first account of a setup that was read, if there is one.
fn first_chain(read: &Result<Setup, SetupError>) -> Option<(u16, u64)> {
    match read {
        Ok(setup) => match setup.parts().accounts.as_slice() {
            [account, ..] => Some((account.sequence, account.password)),
            [] => None,
        },
        Err(_) => None,
    }
}

/// The same of the setup in these bytes.
fn chain_read(alloc: Global, bytes: &[u8]) -> Option<(u16, u64)> {
    first_chain(&read_setup(alloc, bytes))
}

/// The sequence and the password of the first account in a setup's file.
///
/// # Errors
///
/// The bytes are no setup, it has no account, or there isn't the memory.
pub fn chain_in(alloc: Global, bytes: &[u8]) -> Result<(u16, u64), Fault> {
    Ok(chain_read(alloc, bytes).ok_or("an account")?)
}

/// The bytes that a child was sent, of those of the first post that were given back.
pub fn sent(posts: &[MemPost], child: usize) -> &[u8] {
    match posts.first().and_then(|post| post.talks().get(child)) {
        Some(talk) => talk.sent.as_slice(),
        None => b"",
    }
}

/// What the clients of these posts were sent.
///
/// # Errors
///
/// There isn't the memory.
pub fn told(alloc: Global, posts: &[MemPost]) -> Result<Vec<u8>, AllocError> {
    let mut told = Vec::new(alloc);
    for post in posts {
        for act in post.acts() {
            if let Act::ConnSend { bytes, .. } = act {
                told.extend_from_slice(bytes.as_slice())?;
            }
        }
    }
    Ok(told)
}

/// The lines of the events that were not lost.
///
/// # Errors
///
/// There isn't the memory.
pub fn lines_of(alloc: Global, journal: &[Event]) -> Result<Vec<u8>, AllocError> {
    let mut lines = Vec::new(alloc);
    let mut number = 0_u32;
    for event in journal {
        if event.decision != Decision::Lost {
            number = number.wrapping_add(1);
            let mut buf = [0; 256];
            let len = line(number, event, &mut buf);
            lines.extend_from_slice(&buf[..len])?;
        }
    }
    Ok(lines)
}
