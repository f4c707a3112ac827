ghost use Rattle.std.specs.Prelude.{IfOk};
ghost use Rattle.outside.specs.Scene.{IsFresh};
ghost use Rattle.outside_memory.specs.QuietPost.{faults_of, scene_of};

use outside::{
    Accepted, Act, Bytes, Failed, Files, Place, Post, Role, Sink, Site, Stream, Talk, Word,
};
use outside_memory::{
    MemSite, Pieces, PostRoom, QuietFiles, QuietPost, QuietSink, QuietStream, Script,
};
use request_catalogue::Label;
use std::alloc::{AllocError, Global};
use std::test::Fail as Fault;

const PRE: Role = Role::Pre { session: 1 };

/// Whether a stream gives these bytes next, through the bound.
fn receives<S: Stream>(stream: &mut S, want: &[u8]) -> bool {
    let mut buf = [0; 4];
    match stream.recv(&mut buf) {
        Ok(n) => &buf[..n] == want,
        Err(Failed) => false,
    }
}

#[test]
fn a_stream_gives_pieces_and_tells_up_to_its_room(rt: HostRuntime) -> Result<(), Fault> {
    let mut stream = QuietStream::new(rt.alloc(), b"abcdefg", &[3, 2], 3)?;
    assert!(rt; receives(&mut stream, b"abc"));
    assert!(rt; receives(&mut stream, b"de"));
    assert!(rt; receives(&mut stream, b"fg"));
    assert!(rt; receives(&mut stream, b""));
    assert!(rt; stream.send(b"xy") == Ok(()));
    assert!(rt; stream.send(b"z") == Ok(()));
    assert!(rt; stream.tells());
    assert!(rt; stream.sent() == b"xyz".as_slice());
    assert!(rt; stream.send(b"!") == Ok(()));
    assert!(rt; !stream.tells(), "there is room for 3 bytes");
    Ok(())
}

/// Appends through the bound.
fn append<S: Sink>(sink: &mut S, bytes: &[u8]) -> bool {
    sink.append(bytes).is_ok()
}

#[test]
fn a_sink_tells_up_to_its_room(rt: HostRuntime) -> Result<(), Fault> {
    let mut sink = QuietSink::new(rt.alloc(), 5)?;
    assert!(rt; append(&mut sink, b"hel"));
    assert!(rt; append(&mut sink, b"lo"));
    assert!(rt; append(&mut sink, b""));
    assert!(rt; sink.tells());
    assert!(rt; sink.held() == b"hello".as_slice());
    assert!(rt; append(&mut sink, b"!"));
    assert!(rt; !sink.tells(), "there is room for 5 bytes");
    Ok(())
}

/// Whether a reading of a file gives these bytes, through the bound.
fn reads<F: Files>(files: &mut F, name: &Word, offset: u64, want: &[u8]) -> bool {
    let mut buf = [0; 4];
    match files.read(name, offset, &mut buf) {
        Ok(Some(n)) => &buf[..n] == want,
        _ => false,
    }
}

/// Whether a reading finds no file, through the bound.
fn is_missing<F: Files>(files: &mut F, name: &Word) -> bool {
    matches!(files.read(name, 0, &mut [0; 4]), Ok(None))
}

/// Replaces through the bound.
fn replace<F: Files>(files: &mut F, name: &Word, bytes: &[u8]) -> bool {
    files.replace(name, bytes).is_ok()
}

/// Whether a file holds these bytes.
fn holds(files: &QuietFiles, name: &Word, want: &[u8]) -> bool {
    match files.file(name) {
        Some(bytes) => bytes == want,
        None => false,
    }
}

/// One file, and buffers of 3 bytes for two replacings.
fn one_file(alloc: Global, name: &Word) -> Result<QuietFiles, AllocError> {
    let pairs = vec![in alloc; (name.copy(alloc)?, Bytes::of(alloc, b"abcdef")?)]?;
    QuietFiles::new(alloc, pairs.as_slice(), Pieces { count: 4, size: 3 })
}

/// Whether the file is read in pieces, and there is no other.
fn are_read<F: Files>(files: &mut F, old: &Word, new: &Word) -> bool {
    reads(files, old, 0, b"abcd")
        && reads(files, old, 4, b"ef")
        && reads(files, old, u64::MAX, b"")
        && is_missing(files, new)
}

/// Whether two files are replaced.
fn are_replaced(files: &mut QuietFiles, old: &Word, new: &Word) -> bool {
    replace(files, new, b"xyz")
        && replace(files, old, b"")
        && files.tells()
        && holds(files, new, b"xyz")
        && holds(files, old, b"")
}

/// Whether these bytes take the place of a file, which isn't told.
fn is_untold(files: &mut QuietFiles, name: &Word, bytes: &[u8]) -> bool {
    replace(files, name, bytes) && !files.tells()
}

/// Whether files are read and replaced, but for one replacing more than there are buffers for.
fn go_to_their_room(files: &mut QuietFiles, old: &Word, new: &Word) -> bool {
    are_read(files, old, new) && are_replaced(files, old, new) && is_untold(files, old, b"a")
}

#[test]
fn files_are_read_and_replaced_up_to_their_room(rt: HostRuntime) -> Result<(), Fault> {
    let old = Word::of(rt.alloc(), b"old")?;
    let new = Word::of(rt.alloc(), b"new")?;
    let mut files = one_file(rt.alloc(), &old)?;
    assert!(rt; go_to_their_room(&mut files, &old, &new));
    Ok(())
}

#[test]
fn a_file_longer_than_a_buffer_is_not_told(rt: HostRuntime) -> Result<(), Fault> {
    let old = Word::of(rt.alloc(), b"old")?;
    let mut files = one_file(rt.alloc(), &old)?;
    assert!(rt; is_untold(&mut files, &old, b"long"));
    Ok(())
}

fn post(alloc: Global, room: PostRoom) -> Result<QuietPost, AllocError>
    ensures { IfOk result (IsFresh scene_of faults_of) }
{
    let script = Script {
        client: Bytes::of(alloc, b"client")?,
        pre: Bytes::of(alloc, b"hello")?,
        user: Bytes::of(alloc, b"user")?,
    };
    QuietPost::new(alloc, vec![in alloc; script]?, &[4, 3], &[5, 9], room)
}

/// A child that is sent two bytes and isn't read to its end, through the bound.
fn exchange<P: Post>(post: &mut P) -> bool {
    let Ok(mut child) = post.start(&PRE) else {
        return false;
    };
    let received = receives(&mut child, b"hell");
    let sent = child.send(b"ok").is_ok();
    post.finish(child);
    received && sent
}

/// Whether the client sends these bytes next, through the bound.
fn client_sends<P: Post>(post: &mut P, conn: &mut P::Conn, want: &[u8]) -> bool {
    let mut buf = [0; 8];
    match post.conn_recv(conn, &mut buf) {
        Ok(n) => &buf[..n] == want,
        Err(Failed) => false,
    }
}

/// One connection with one child, through the bound: whether it went as the script says.
fn serve<P: Post>(post: &mut P) -> bool {
    let Ok(Some(mut conn)) = post.accept() else {
        return false;
    };
    let first = client_sends(post, &mut conn, b"clie");
    let second = client_sends(post, &mut conn, b"nt");
    let exchanged = exchange(post);
    let answered = post.conn_send(&mut conn, b"bye").is_ok();
    post.hang_up(conn);
    first && second && exchanged && answered && post.now() == 5 && post.now() == 9
}

/// One letter for what an act is.
fn letter(act: &Act) -> u8 {
    match act {
        Act::Accept {
            outcome: Accepted::Came,
        } => b'a',
        Act::Accept { .. } => b'n',
        Act::Start { .. } => b's',
        Act::Finish { .. } => b'f',
        Act::HangUp => b'h',
        Act::ConnRecv { .. } => b'r',
        Act::ConnSend { .. } => b'w',
        Act::VaultRead { .. } => b'v',
        Act::VaultWrite { .. } => b'p',
        Act::Clock { .. } => b'c',
    }
}

/// Whether the acts are those of the letters.
fn are_acts(acts: &[Act], letters: &[u8]) -> bool {
    acts.iter().map(letter).eq(letters.iter().copied())
}

/// Whether what passed with the one child is this.
fn is_talk(talks: &[Talk], taken: &[u8], sent: &[u8]) -> bool {
    match talks {
        [talk] => talk.taken.as_slice() == taken && talk.sent.as_slice() == sent,
        _ => false,
    }
}

/// Whether a post plays its script, and no other then.
fn plays_once(post: &mut QuietPost) -> bool {
    serve(post)
        && !serve(post)
        && post.tells()
        && are_acts(post.acts(), b"arrsfwhccn")
        && is_talk(post.talks(), b"hell", b"ok")
}

#[test]
fn a_post_plays_its_script_once(rt: HostRuntime) -> Result<(), Fault> {
    let room = PostRoom {
        acts: 12,
        talks: 1,
        pieces: Pieces { count: 3, size: 6 },
    };
    let mut post = post(rt.alloc(), room)?;
    assert!(rt; plays_once(&mut post));
    Ok(())
}

/// Whether a post with this room tells to the end of one connection.
fn tells_to_the_end(
    alloc: Global,
    acts: usize,
    talks: usize,
    pieces: Pieces,
) -> Result<bool, AllocError> {
    let mut post = post(
        alloc,
        PostRoom {
            acts,
            talks,
            pieces,
        },
    )?;
    let served = serve(&mut post);
    Ok(served && post.tells())
}

#[test]
fn a_post_ceases_to_tell_at_each_limit(rt: HostRuntime) -> Result<(), Fault> {
    let pieces = Pieces { count: 3, size: 5 };
    assert!(rt; tells_to_the_end(rt.alloc(), 9, 1, pieces)?);
    assert!(rt;
        !tells_to_the_end(rt.alloc(), 8, 1, pieces)?,
        "there are 9 acts"
    );
    assert!(rt;
        !tells_to_the_end(rt.alloc(), 9, 0, pieces)?,
        "there is a child"
    );
    let pieces = Pieces { count: 2, size: 5 };
    assert!(rt;
        !tells_to_the_end(rt.alloc(), 9, 1, pieces)?,
        "3 acts have bytes"
    );
    let pieces = Pieces { count: 3, size: 3 };
    assert!(rt;
        !tells_to_the_end(rt.alloc(), 9, 1, pieces)?,
        "a piece has 4 bytes"
    );
    Ok(())
}

/// Whether a reading of a user's file gives these bytes, through the bound.
fn file_gives<P: Post>(post: &mut P, name: &Label, offset: u64, want: &[u8]) -> bool {
    let mut buf = [0; 8];
    match post.vault_read(7, name, offset, &mut buf) {
        Ok(n) => &buf[..n] == want,
        Err(Failed) => false,
    }
}

/// Writes into a user's file, through the bound.
fn write_file<P: Post>(post: &mut P, name: &Label, offset: u64, bytes: &[u8]) -> bool {
    post.vault_write(7, name, offset, bytes).is_ok()
}

/// A post with room for files of 6 bytes: as many buffers as these.
fn filing_post(alloc: Global, count: usize) -> Result<QuietPost, AllocError> {
    let pieces = Pieces { count, size: 6 };
    post(
        alloc,
        PostRoom {
            acts: 20,
            talks: 0,
            pieces,
        },
    )
}

/// Whether a missing file is made, and a gap is filled with zeros.
fn is_made(post: &mut QuietPost, name: &Label) -> bool {
    post.user_file(7, name) == None
        && file_gives(post, name, 0, b"")
        && write_file(post, name, 2, b"cd")
        && post.user_file(7, name) == Some(b"\0\0cd".as_slice())
}

/// Whether what a write doesn't cover stays, and no bytes change nothing.
fn is_written(post: &mut QuietPost, name: &Label) -> bool {
    write_file(post, name, 0, b"abC")
        && write_file(post, name, 9, b"")
        && file_gives(post, name, 1, b"bCd")
        && file_gives(post, name, u64::MAX, b"")
}

/// Whether another user's file of the name stands beside it.
fn is_apart(post: &mut QuietPost, name: &Label) -> bool {
    post.keep(8, name, b"theirs").is_ok()
        && post.user_file(8, name) == Some(b"theirs".as_slice())
        && post.user_file(7, name) == Some(b"abCd".as_slice())
        && post.tells()
}

#[test]
fn users_files_are_kept_read_and_written(rt: HostRuntime) -> Result<(), Fault> {
    let name = Label::of(b"notes").ok_or("a label")?;
    let mut post = filing_post(rt.alloc(), 20)?;
    let all = is_made(&mut post, &name)
        && is_written(&mut post, &name)
        && is_apart(&mut post, &name);
    assert!(rt; all);
    Ok(())
}

/// Whether a file has room for 6 bytes: a longer one isn't kept, and a write beyond isn't told.
fn has_room_for_six(post: &mut QuietPost, name: &Label) -> bool {
    write_file(post, name, 4, b"ef")
        && post.tells()
        && post.keep(7, name, b"abcdefg").is_err()
        && post.user_file(7, name) == Some(b"\0\0\0\0ef".as_slice())
        && write_file(post, name, 5, b"fg")
        && !post.tells()
}

#[test]
fn a_write_that_finds_no_room_is_not_told(rt: HostRuntime) -> Result<(), Fault> {
    let name = Label::of(b"notes").ok_or("a label")?;
    let mut post = filing_post(rt.alloc(), 5)?;
    assert!(rt; has_room_for_six(&mut post, &name));
    Ok(())
}

/// Whether a second write isn't told: a write and its act use 3 buffers.
fn has_room_for_one(post: &mut QuietPost, name: &Label) -> bool {
    write_file(post, name, 0, b"a") && write_file(post, name, 0, b"b") && !post.tells()
}

#[test]
fn a_write_that_finds_no_buffer_is_not_told(rt: HostRuntime) -> Result<(), Fault> {
    let name = Label::of(b"notes").ok_or("a label")?;
    let mut post = filing_post(rt.alloc(), 5)?;
    assert!(rt; has_room_for_one(&mut post, &name));
    Ok(())
}

/// How many posts a site gives to one worker.
fn listen(alloc: Global, post: QuietPost) -> Result<usize, AllocError>
    requires { IsFresh scene_of faults_of post }
{
    let place = Place {
        socket: Word::of(alloc, b"/run/otp")?,
        launcher: Word::of(alloc, b"/bin/launch")?,
        vault: Word::of(alloc, b"/var/otp")?,
        workers: 1,
    };
    let mut site = MemSite::new(alloc, vec![in alloc; post]?)?;
    match site.listen(&place) {
        Ok(posts) => Ok(posts.len()),
        Err(Failed) => Ok(0),
    }
}

#[test]
fn a_site_gives_a_quiet_post(rt: HostRuntime) -> Result<(), Fault> {
    let pieces = Pieces { count: 3, size: 5 };
    let room = PostRoom {
        acts: 9,
        talks: 1,
        pieces,
    };
    let post = post(rt.alloc(), room)?;
    assert!(rt; listen(rt.alloc(), post)? == 1);
    Ok(())
}
