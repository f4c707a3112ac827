//! The operations of a session's requests.

ghost use Rattle.std.specs.Prelude.{◌≡◌, ◌<◌, ◌≤◌, ◌∷◌, [], ℕ, List, length};
ghost use Rattle.outside.specs.Faults.{NoneFell};
ghost use Rattle.service_model.specs.Acts.{ReadsFile, Receives, Sends, WritesFile};
ghost use Rattle.session_asking.specs.Work.{Does, Fits, FitsWork, work_operations};

use crate::live::UserFile;
use crate::work::{Outcome, Work};
use outside::{Failed, Post};

/// The device that stands for the client's connection in a reply.
const CONNECTION: u8 = 1;

/// The device that stands for the users' files.
const FILES: u8 = 2;

/// Does what is to be done, and answers what came of it: what is received or read stands in front of
/// the piece.
pub fn perform<P: Post>(
    post: &mut P,
    conn: &mut P::Conn,
    work: &Work<'_>,
    piece: &mut [u8],
) -> Outcome
    requires fits { FitsWork (length piece.old) work.now }
    ensures done { Does (work_operations work.now) result piece.new (P.scene post.old) (P.scene post.new) }
    ensures fits { Fits result (length piece.new) }
    ensures len { length piece.new ≡ length piece.old }
    ensures kept { NoneFell (P.faults post.old) (P.faults post.new) }
{
    match *work {
        Work::Nothing => Outcome::Done { len: 0 },
        Work::Receive { max } => receive(post, conn, &mut piece[..max as usize]),
        Work::Send { bytes } => send(post, conn, bytes),
        Work::ReadFile { file, offset, max } => {
            read_file(post, &file, offset, &mut piece[..max as usize])
        }
        Work::WriteFile {
            file,
            offset,
            bytes,
        } => write_file(post, &file, offset, bytes),
    }
}

/// Receives bytes of the client into the front of the piece.
fn receive<P: Post>(post: &mut P, conn: &mut P::Conn, piece: &mut [u8]) -> Outcome
    requires { 0 < length piece.old }
    ensures done { Does (Receives (length piece.old) ∷ []) result piece.new (P.scene post.old) (P.scene post.new) }
    ensures fits { Fits result (length piece.new) }
    ensures kept { NoneFell (P.faults post.old) (P.faults post.new) }
{
    match post.conn_recv(conn, piece) {
        Ok(len) => Outcome::Done { len },
        Err(Failed) => Outcome::Failed { device: CONNECTION },
    }
}

/// Sends bytes to the client.
fn send<P: Post>(post: &mut P, conn: &mut P::Conn, bytes: &[u8]) -> Outcome
    ensures done { (piece : List ℕ) → Does (Sends bytes.now ∷ []) result piece (P.scene post.old) (P.scene post.new) }
    ensures fits { (room : ℕ) → Fits result room }
    ensures kept { NoneFell (P.faults post.old) (P.faults post.new) }
{
    match post.conn_send(conn, bytes) {
        Ok(()) => Outcome::Done { len: 0 },
        Err(Failed) => Outcome::Failed { device: CONNECTION },
    }
}

/// Reads bytes of a user's file into the front of the piece.
fn read_file<P: Post>(post: &mut P, file: &UserFile, offset: u64, piece: &mut [u8]) -> Outcome
    ensures done { Does (ReadsFile file.now.uid file.now.name offset (length piece.old) ∷ []) result piece.new
        (P.scene post.old) (P.scene post.new) }
    ensures fits { Fits result (length piece.new) }
    ensures kept { NoneFell (P.faults post.old) (P.faults post.new) }
{
    match post.vault_read(file.uid, &file.name, offset, piece) {
        Ok(len) => Outcome::Done { len },
        Err(Failed) => Outcome::Failed { device: FILES },
    }
}

/// Writes bytes into a user's file.
fn write_file<P: Post>(post: &mut P, file: &UserFile, offset: u64, bytes: &[u8]) -> Outcome
    ensures done { (piece : List ℕ) → Does (WritesFile file.now.uid file.now.name offset bytes.now ∷ []) result piece
        (P.scene post.old) (P.scene post.new) }
    ensures fits { (room : ℕ) → Fits result room }
    ensures kept { NoneFell (P.faults post.old) (P.faults post.new) }
{
    match post.vault_write(file.uid, &file.name, offset, bytes) {
        Ok(()) => Outcome::Done { len: 0 },
        Err(Failed) => Outcome::Failed { device: FILES },
    }
}
