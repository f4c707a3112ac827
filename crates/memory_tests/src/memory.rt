ghost use Rattle.std.specs.Prelude.{◌≡◌, ◌<◌, ◌≤◌, IfOk, IfSome, length};
ghost use Rattle.outside_memory.specs.MemPost.{faults_of, scene_of};
ghost use Rattle.outside.specs.Scene.{IsFresh};

use outside::{
    Accepted, Act, Bytes, Failed, Files, Place, Post, Receiving, Role, Sink, Site, Stream, Talk,
    Word,
};
use outside_memory::{
    CallKind, Fail, MemConn, MemFiles, MemPost, MemSink, MemSite, MemStream, Script,
};
use request_catalogue::Label;
use std::alloc::{AllocError, Global};
use std::test::Fail as Fault;

const PRE: Role = Role::Pre { session: 1 };

fn fail(call: CallKind, number: u32, sent: usize) -> Fail {
    Fail { call, number, sent }
}

/// Receives through the bound.
fn receive<S: Stream>(stream: &mut S, buf: &mut [u8]) -> Result<usize, Failed>
    requires { 0 < length buf.old }
    ensures { IfOk result (λ n. n ≤ length buf.new) }
{
    stream.recv(buf)
}

/// Sends through the bound.
fn send<S: Stream>(stream: &mut S, bytes: &[u8]) -> Result<(), Failed> {
    stream.send(bytes)
}

#[test]
fn a_stream_gives_pieces_and_fails_as_listed(rt: HostRuntime) -> Result<(), Fault> {
    let fails = [fail(CallKind::Recv, 2, 0), fail(CallKind::Send, 2, 1)];
    let mut stream = MemStream::new(rt.alloc(), b"abcdefg", &[3, 2], &fails)?;
    let received: [Result<&[u8], Failed>; 5] = [
        Ok(b"abc"),
        Err(Failed),
        Ok(b"de"),
        Ok(b"fg"),
        Ok(b""),
    ];
    for want in received {
        let mut buf = [0; 4];
        let got = receive(&mut stream, &mut buf).map(|n| &buf[..n]);
        assert!(rt; got == want);
    }
    assert!(rt; send(&mut stream, b"xy") == Ok(()));
    assert!(rt; send(&mut stream, b"zw") == Err(Failed));
    assert!(rt; stream.tells());
    assert!(rt; stream.sent() == b"xyz".as_slice());
    Ok(())
}

/// Appends through the bound.
fn append<S: Sink>(sink: &mut S, bytes: &[u8]) -> Result<(), Failed> {
    sink.append(bytes)
}

#[test]
fn a_sink_keeps_a_first_part_of_a_failing_append(rt: HostRuntime) -> Result<(), Fault> {
    let mut sink = MemSink::new(rt.alloc(), &[fail(CallKind::Append, 2, 3)])?;
    assert!(rt; append(&mut sink, b"hello ") == Ok(()));
    assert!(rt; append(&mut sink, b"world") == Err(Failed));
    assert!(rt; append(&mut sink, b"!") == Ok(()));
    assert!(rt; sink.tells());
    assert!(rt; sink.held() == b"hello wor!".as_slice());
    Ok(())
}

/// Reads through the bound.
fn read<F: Files>(
    files: &mut F,
    name: &Word,
    offset: u64,
    buf: &mut [u8],
) -> Result<Option<usize>, Failed>
    ensures { IfOk result (λ found. IfSome found (λ n. n ≤ length buf.new)) }
{
    files.read(name, offset, buf)
}

/// Replaces through the bound.
fn replace<F: Files>(files: &mut F, name: &Word, bytes: &[u8]) -> Result<(), Failed> {
    files.replace(name, bytes)
}

/// Whether a read of up to four bytes gives these.
fn reads<F: Files>(files: &mut F, name: &Word, offset: u64, want: &[u8]) -> bool {
    let mut buf = [0; 4];
    match read(files, name, offset, &mut buf) {
        Ok(Some(n)) => &buf[..n] == want,
        _ => false,
    }
}

/// Whether a read finds no file.
fn is_missing<F: Files>(files: &mut F, name: &Word) -> bool {
    matches!(read(files, name, 0, &mut [0; 4]), Ok(None))
}

/// Whether a read fails.
fn fails_to_read<F: Files>(files: &mut F, name: &Word) -> bool {
    read(files, name, 0, &mut [0; 4]).is_err()
}

/// Whether the file of a name is told to have these bytes.
fn holds(files: &MemFiles, name: &Word, want: &[u8]) -> bool {
    match files.file(name) {
        Some(bytes) => bytes == want,
        None => false,
    }
}

/// Two pairs with one name.
fn two_pairs(alloc: Global) -> Result<Vec<(Word, Bytes)>, AllocError> {
    Ok(vec![in alloc; pair(alloc, b"abcdef")?, pair(alloc, b"twice")?]?)
}

/// A file of the name `old`.
fn pair(alloc: Global, bytes: &[u8]) -> Result<(Word, Bytes), AllocError> {
    Ok((Word::of(alloc, b"old")?, Bytes::of(alloc, bytes)?))
}

/// Files of these pairs, whose third read fails and whose second replacing.
fn old_files(alloc: Global) -> Result<MemFiles, AllocError> {
    let pairs = two_pairs(alloc)?;
    let fails = [fail(CallKind::Read, 3, 0), fail(CallKind::Replace, 2, 0)];
    MemFiles::new(alloc, pairs.as_slice(), &fails)
}

/// Whether the file is read in pieces, and the third read fails.
fn is_read_in_pieces<F: Files>(files: &mut F, old: &Word) -> bool {
    reads(files, old, 0, b"abcd")
        && reads(files, old, 4, b"ef")
        && fails_to_read(files, old)
        && reads(files, old, 6, b"")
        && reads(files, old, u64::MAX, b"")
}

/// Whether a file is made and replaced, and the second replacing fails.
fn is_replaced<F: Files>(files: &mut F, new: &Word) -> bool {
    is_missing(files, new)
        && replace(files, new, b"x").is_ok()
        && replace(files, new, b"y").is_err()
        && replace(files, new, b"zz").is_ok()
}

#[test]
fn files_are_read_and_replaced_and_fail_as_listed(rt: HostRuntime) -> Result<(), Fault> {
    let mut files = old_files(rt.alloc())?;
    let old = Word::of(rt.alloc(), b"old")?;
    let new = Word::of(rt.alloc(), b"new")?;
    assert!(rt; is_read_in_pieces(&mut files, &old));
    assert!(rt; is_replaced(&mut files, &new));
    assert!(rt; files.tells() && holds(&files, &old, b"abcdef") && holds(&files, &new, b"zz"));
    Ok(())
}

fn script(alloc: Global, pre: &[u8]) -> Result<Script, AllocError> {
    Ok(Script {
        client: Bytes::of(alloc, b"client")?,
        pre: Bytes::of(alloc, pre)?,
        user: Bytes::of(alloc, b"user")?,
    })
}

fn post(alloc: Global, room: usize, fails: &[Fail]) -> Result<MemPost, AllocError>
    ensures { IfOk result (IsFresh scene_of faults_of) }
{
    let scripts = vec![in alloc; script(alloc, b"hello")?, script(alloc, b"later")?]?;
    MemPost::new(alloc, scripts, &[3], &[5, 9], room, fails)
}

/// One connection with one child, through the bound: whether a connection came.
fn serve<P: Post>(post: &mut P) -> Result<bool, Failed> {
    let Some(mut conn) = post.accept()? else {
        return Ok(false);
    };
    let started = post.start(&PRE);
    let _ = post.conn_send(&mut conn, b"a");
    if let Ok(mut child) = started {
        let mut buf = [0; 8];
        let _ = child.recv(&mut buf);
        let _ = child.recv(&mut buf);
        let _ = child.send(b"ok");
        post.finish(child);
    }
    post.hang_up(conn);
    Ok(true)
}

/// A letter for an act: a small one where it failed, and `?` for one that isn't looked for.
fn letter_of(act: &Act) -> u8 {
    match act {
        Act::Accept { outcome } => accept_letter(*outcome),
        Act::Start { role, outcome } if *role == PRE => letter_by(outcome.is_ok(), b'S', b's'),
        Act::ConnSend { bytes, outcome } if bytes.as_slice() == b"a".as_slice() => {
            letter_by(outcome.is_ok(), b'W', b'w')
        }
        Act::Finish { role } if *role == PRE => b'E',
        Act::HangUp => b'H',
        _ => b'?',
    }
}

fn accept_letter(outcome: Accepted) -> u8 {
    match outcome {
        Accepted::Came => b'A',
        Accepted::Failed => b'a',
        Accepted::NoneLeft => b'N',
    }
}

fn letter_by(well: bool, good: u8, bad: u8) -> u8 {
    if well { good } else { bad }
}

/// Whether these acts were told, a letter each.
fn are_told(acts: &[Act], want: &[u8]) -> bool {
    for (act, letter) in acts.iter().zip(want) {
        if letter_of(act) != *letter {
            return false;
        }
    }
    acts.len() == want.len()
}

/// Whether this alone passed with a child.
fn is_the_talk(talks: &[Talk]) -> bool {
    match talks {
        [talk] => {
            talk.role == PRE
                && talk.taken.as_slice() == b"hel".as_slice()
                && talk.sent.as_slice() == b"o".as_slice()
        }
        _ => false,
    }
}

/// Receives, sends and receives once more from the one child of a connection, through the bound.
fn talk_twice<P: Post>(post: &mut P) -> Result<(), Failed> {
    let Some(conn) = post.accept()? else {
        return Ok(());
    };
    if let Ok(mut child) = post.start(&PRE) {
        let mut buf = [0; 8];
        let _ = child.recv(&mut buf);
        let _ = child.send(b"ok");
        let _ = child.recv(&mut buf);
        post.finish(child);
    }
    post.hang_up(conn);
    Ok(())
}

/// Whether these receivings were asked of the one child, by how many bytes it had taken and sent before.
fn are_asked(talks: &[Talk], want: &[Receiving]) -> bool {
    match talks {
        [talk] => match &talk.receivings {
            Some(receivings) => receivings.as_slice() == want,
            None => false,
        },
        _ => false,
    }
}

#[test]
fn a_talk_tells_when_each_receiving_was_asked(rt: HostRuntime) -> Result<(), Fault> {
    let mut post = post(rt.alloc(), 9, &[])?;
    let first = Receiving { taken: 0, sent: 0 };
    let second = Receiving { taken: 3, sent: 2 };
    let is_asked = talk_twice(&mut post).is_ok() && are_asked(post.talks(), &[first, second]);
    assert!(rt; is_asked);
    Ok(())
}

/// Whether the post serves, fails, serves and has no more.
fn is_served<P: Post>(post: &mut P) -> bool {
    serve(post) == Ok(true)
        && serve(post) == Err(Failed)
        && serve(post) == Ok(true)
        && serve(post) == Ok(false)
}

/// A post with room for 11 acts, of each of whose calls one fails.
fn failing_post(alloc: Global) -> Result<MemPost, AllocError> {
    let fails = [
        fail(CallKind::Accept, 2, 0),
        fail(CallKind::Start, 2, 0),
        fail(CallKind::ConnSend, 2, 0),
        fail(CallKind::Recv, 1, 0),
        fail(CallKind::Send, 1, 1),
    ];
    post(alloc, 11, &fails)
}

#[test]
fn a_post_plays_its_scripts_and_fails_as_listed(rt: HostRuntime) -> Result<(), Fault> {
    let mut post = failing_post(rt.alloc())?;
    assert!(rt; is_served(&mut post) && post.tells());
    assert!(rt; are_told(post.acts(), b"ASWEHaAswHN"));
    assert!(rt; is_the_talk(post.talks()));
    assert!(rt;
        serve(&mut post) == Ok(false) && !post.tells(),
        "there is room for 11 acts"
    );
    Ok(())
}

/// How many posts a site gives, through the bound.
fn listen<S: Site>(site: &mut S, place: &Place) -> Result<usize, Failed>
    requires { 1 ≤ place.now.workers }
{
    Ok(site.listen(place)?.len())
}

/// A site with two posts.
fn site_of_two(alloc: Global) -> Result<MemSite<MemPost>, AllocError> {
    let mut posts = Vec::new(alloc);
    posts.push(post(alloc, 4, &[])?)?;
    posts.push(post(alloc, 4, &[])?)?;
    MemSite::new(alloc, posts)
}

fn place_for(alloc: Global, workers: u32) -> Result<Place, AllocError>
    ensures { IfOk result (λ place. place.workers ≡ workers) }
{
    Ok(Place {
        socket: Word::of(alloc, b"/run/otp")?,
        launcher: Word::of(alloc, b"/bin/launch")?,
        vault: Word::of(alloc, b"/var/otp")?,
        workers,
    })
}

/// Whether the site gives its two posts, and then no more.
fn gives_two_once<S: Site>(site: &mut S, place: &Place) -> bool
    requires { 1 ≤ place.now.workers }
{
    listen(site, place) == Ok(2) && listen(site, place) == Err(Failed)
}

/// Whether this is the one place.
fn is_the_place(places: &[Place]) -> bool {
    match places {
        [place] => place.socket.as_str() == "/run/otp" && place.workers == 2,
        _ => false,
    }
}

#[test]
fn a_site_gives_its_posts_once_to_as_many_workers(rt: HostRuntime) -> Result<(), Fault> {
    let mut site = site_of_two(rt.alloc())?;
    let mut place = place_for(rt.alloc(), 3)?;
    assert!(rt; listen(&mut site, &place) == Err(Failed));
    place.workers = 2;
    assert!(rt; gives_two_once(&mut site, &place));
    assert!(rt; site.tells() && is_the_place(site.listens()));
    Ok(())
}

/// What a reading of a user's file gives, through the bound.
fn file_piece<P: Post>(
    post: &mut P,
    uid: u32,
    name: &Label,
    offset: u64,
) -> Result<([u8; 8], usize), Failed> {
    let mut buf = [0; 8];
    let n = post.vault_read(uid, name, offset, &mut buf)?;
    Ok((buf, n))
}

/// Writes into a user's file, through the bound.
fn write_file<P: Post>(
    post: &mut P,
    uid: u32,
    name: &Label,
    offset: u64,
    bytes: &[u8],
) -> Result<(), Failed> {
    post.vault_write(uid, name, offset, bytes)
}

/// Whether a user's file is told to have these bytes.
fn keeps(post: &MemPost, uid: u32, name: &Label, want: &[u8]) -> bool {
    match post.user_file(uid, name) {
        Some(bytes) => bytes == want,
        None => false,
    }
}

/// Whether a missing file is made, and a gap filled with zeros.
fn is_made(post: &mut MemPost, name: &Label) -> bool {
    post.user_file(7, name).is_none()
        && file_piece(post, 7, name, 0) == Ok(([0; 8], 0))
        && write_file(post, 7, name, 2, b"cd").is_ok()
        && keeps(post, 7, name, b"\0\0cd")
}

/// Whether what a write doesn't cover stays, and the fourth write fails.
fn is_written(post: &mut MemPost, name: &Label) -> bool {
    write_file(post, 7, name, 0, b"abC").is_ok()
        && write_file(post, 7, name, 9, b"").is_ok()
        && write_file(post, 7, name, 0, b"lost").is_err()
        && keeps(post, 7, name, b"abCd")
}

/// Whether the file is read from an offset, and beyond its end.
fn is_read<P: Post>(post: &mut P, name: &Label) -> bool {
    file_piece(post, 7, name, 1) == Ok((*b"bCd\0\0\0\0\0", 3))
        && file_piece(post, 7, name, u64::MAX) == Ok(([0; 8], 0))
}

#[test]
fn users_files_are_kept_read_and_written(rt: HostRuntime) -> Result<(), Fault> {
    let mut post = post(rt.alloc(), 40, &[fail(CallKind::VaultWrite, 4, 0)])?;
    let name = Label::of(b"notes").ok_or("a label")?;
    assert!(rt; is_made(&mut post, &name));
    assert!(rt; is_written(&mut post, &name));
    assert!(rt; is_read(&mut post, &name));
    post.keep(8, &name, b"theirs")?;
    assert!(rt; keeps(&post, 8, &name, b"theirs") && keeps(&post, 7, &name, b"abCd"));
    assert!(rt; post.tells());
    Ok(())
}

/// What the client of a post's next connection sends, through the bound: up to two pieces.
fn from_client<P: Post>(post: &mut P) -> Result<([u8; 8], usize), Failed> {
    let Some(mut conn) = post.accept()? else {
        return Err(Failed);
    };
    let mut buf = [0; 8];
    let first = post.conn_recv(&mut conn, &mut buf[..4]);
    let second = match first {
        Ok(n) => post.conn_recv(&mut conn, &mut buf[n..]),
        Err(Failed) => Ok(0),
    };
    post.hang_up(conn);
    Ok((buf, first? + second?))
}

/// The moments that a post's clock gives, through the bound.
fn three_moments<P: Post>(post: &mut P) -> [u64; 3] {
    [post.now(), post.now(), post.now()]
}

#[test]
fn a_client_is_received_in_pieces_and_the_clock_goes_on(rt: HostRuntime) -> Result<(), Fault> {
    let mut post = post(rt.alloc(), 40, &[fail(CallKind::ConnRecv, 3, 0)])?;
    assert!(rt; from_client(&mut post) == Ok((*b"client\0\0", 6)));
    assert!(rt; from_client(&mut post) == Err(Failed));
    assert!(rt; three_moments(&mut post) == [5, 9, 9]);
    assert!(rt; post.acts().len() == 10);
    Ok(())
}
