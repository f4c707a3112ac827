ghost use Rattle.std.specs.Prelude.{◌≡◌, ◌≤◌, IfOk};

use outside::{Failed, Place, Post, Role, Sink, Site, Stream, Word};
use outside_real::{Limits, RealSite, close, launch};
use real_files::{RealEnds, RealSink};
use request_catalogue::{Label, Name};
use std::alloc::{AllocError, Global};
use std::fs::OpenOptions;
use std::io::{Read, Write};
use std::net::{Net, Shutdown};
use std::os::unix::fs::{MetadataExt, OpenOptionsExt, symlink};
use std::os::unix::net::UnixStream;
use std::rt::{Env, Files as FileSystem, Process};
use std::test::Fail as Fault;
use std::time::Duration;
use std::{env, fs, io, process};
use system_calls::{Patience, PostClock};

const PRE: Role = Role::Pre { session: 1 };

/// A path of its own in the system's temporary folder.
pub(crate) fn temporary_path<R: Env + AllocGlobal>(
    rt: &R,
    process: Process,
    name: &str,
) -> io::Result<Word> {
    let folder = env::temp_dir(rt)?;
    let (folder, id) = (folder.as_str(), process::id(process));
    let path = format!(in rt.alloc(); "{folder}/outside_real-{id}-{name}")?;
    Ok(Word::of(rt.alloc(), path.as_str().as_bytes())?)
}

/// A place with this socket and launcher.
fn place_at(alloc: Global, socket: Word, launcher: &str) -> Result<Place, AllocError>
    ensures { IfOk result (λ place. place.workers ≡ 2) }
{
    let launcher = Word::of(alloc, launcher.as_bytes())?;
    let vault = Word::of(alloc, b"vault")?;
    Ok(Place {
        socket,
        launcher,
        vault,
        workers: 2,
    })
}

/// A place with a socket of its own in the system's temporary folder.
fn temporary_place<R: Env + AllocGlobal>(
    rt: &R,
    process: Process,
    name: &str,
    launcher: &str,
) -> io::Result<Place>
    ensures { IfOk result (λ place. place.workers ≡ 2) }
{
    let socket = temporary_path(rt, process, name)?;
    Ok(place_at(rt.alloc(), socket, launcher)?)
}

/// Removes the place's socket and the lock beside it.
fn clear<R: FileSystem + AllocGlobal>(rt: &R, place: &Place) -> io::Result<()> {
    let socket = place.socket.as_str();
    let lock = format!(in rt.alloc(); "{socket}.lock")?;
    fs::remove_file(rt, socket)?;
    fs::remove_file(rt, lock.as_str())
}

/// The post of the last worker, through the bound.
fn last_post<S: Site>(site: &mut S, place: &Place) -> Result<S::Post, Failed>
    requires { place.now.workers ≡ 2 }
{
    let mut posts = site.listen(place)?;
    posts.pop().ok_or(Failed)
}

/// The next client, through the bound.
fn next_client<P: Post>(post: &mut P) -> Result<P::Conn, Failed> {
    post.accept()?.ok_or(Failed)
}

/// Greets the next client, through the bound.
fn greet<P: Post>(post: &mut P) -> Result<(), Failed> {
    let mut conn = next_client(post)?;
    let sent = post.conn_send(&mut conn, b"hi");
    post.hang_up(conn);
    sent
}

/// Whether these bytes, and no more, come to the end.
fn comes<T: Read>(alloc: Global, from: &mut T, want: &[u8]) -> bool {
    let mut got = Vec::new(alloc);
    from.read_to_end(&mut got).is_ok() && got.as_slice() == want
}

/// A client that has connected at a path and sent these bytes.
fn client_at<N: Net>(net: &N, path: &str, bytes: &[u8]) -> io::Result<UnixStream> {
    let mut client = UnixStream::connect(net, path)?;
    client.write_all(bytes)?;
    Ok(client)
}

/// Whether a post greets a client that sent it what nobody reads.
fn greets<P: Post, N: Net>(net: &N, alloc: Global, post: &mut P, path: &str) -> io::Result<bool> {
    let mut client = client_at(net, path, b"what nobody wanted")?;
    Ok(greet(post).is_ok() && comes(alloc, &mut client, b"hi"))
}

/// What a post does.
#[derive(Clone, Copy)]
enum Trial<'a> {
    /// It greets a client that sent it what nobody reads.
    Greets,
    /// It waits in vain for a client that receives nothing, and for its child.
    Waits,
    /// It hears a client no more once the time for its login is up.
    EndsLogin,
    /// It hears its user's child after the time for a login is up.
    HearsOn(&'a Role),
    /// It has a child of this role, which writes these bytes and ends.
    Starts(&'a Role, &'a [u8]),
    /// It fails to start a child.
    StartsNone,
    /// It hears a client that sends and ends.
    Hears,
}

/// Limits that are as short as what is tried needs.
fn limits_of(trial: &Trial<'_>) -> Limits {
    match trial {
        Trial::Waits => short_limits(),
        Trial::EndsLogin | Trial::HearsOn(_) => short_login(),
        _ => Limits::usual(),
    }
}

/// Whether a post does so, which listens at this path.
fn does<P: Post, N: Net>(
    net: &N,
    alloc: Global,
    post: &mut P,
    path: &str,
    trial: &Trial<'_>,
) -> Result<bool, Fault> {
    match trial {
        Trial::Greets => Ok(greets(net, alloc, post, path)?),
        Trial::Waits => waits_long(net, alloc, post, path),
        Trial::EndsLogin => Ok(ends_login(net, post, path)?),
        Trial::HearsOn(role) => Ok(hears_on(net, post, path, role)?),
        Trial::Starts(role, want) => Ok(writes(post, role, want) == Ok(true)),
        Trial::StartsNone => Ok(writes(post, &PRE, b"") == Err(Failed)),
        Trial::Hears => Ok(is_heard(net, post, path)?),
    }
}

/// Whether the last post of a place does so.
fn last_does<S: Site, N: Net>(
    net: &N,
    alloc: Global,
    site: &mut S,
    place: &Place,
    trial: &Trial<'_>,
) -> Result<bool, Fault>
    requires { place.now.workers ≡ 2 }
{
    let mut post = last_post(site, place)?;
    does(net, alloc, &mut post, place.socket.as_str(), trial)
}

/// Whether the last post of a new site of a place does so.
fn does_at(rt: HostRuntime, place: &Place, trial: &Trial<'_>) -> Result<bool, Fault>
    requires { place.now.workers ≡ 2 }
{
    let limits = limits_of(trial);
    last_does(
        &rt,
        rt.alloc(),
        &mut RealSite::with_limits(rt, rt.alloc(), limits),
        place,
        trial,
    )
}

/// The same. The place is cleared.
fn does_once(rt: HostRuntime, place: &Place, trial: &Trial<'_>) -> Result<bool, Fault>
    requires { place.now.workers ≡ 2 }
{
    let does = does_at(rt, place, trial)?;
    clear(&rt, place)?;
    Ok(does)
}

/// The same of a place with a socket of this name, and this launcher.
fn post_does(
    rt: HostRuntime,
    name: &str,
    launcher: &str,
    trial: &Trial<'_>,
) -> Result<bool, Fault> {
    let place = temporary_place(&rt, rt.process(), name, launcher)?;
    does_once(rt, &place, trial)
}

/// The same of a launcher that is removed then.
fn post_does_by(
    rt: HostRuntime,
    name: &str,
    launcher: &str,
    trial: &Trial<'_>,
) -> Result<bool, Fault> {
    let does = post_does(rt, name, launcher, trial)?;
    fs::remove_file(&rt, launcher)?;
    Ok(does)
}

/// Whether a client is greeted at two sites of one place, one after the other. The place is cleared.
fn greets_twice(rt: HostRuntime, place: &Place) -> Result<bool, Fault>
    requires { place.now.workers ≡ 2 }
{
    let is_greeted = does_at(rt, place, &Trial::Greets)? && does_at(rt, place, &Trial::Greets)?;
    clear(&rt, place)?;
    Ok(is_greeted)
}

/// The same of a place in the temporary folder.
fn is_greeted_twice(rt: HostRuntime) -> Result<bool, Fault> {
    let place = temporary_place(&rt, rt.process(), "greets", "echo")?;
    greets_twice(rt, &place)
}

#[test]
fn a_client_is_greeted_and_the_socket_replaced(rt: HostRuntime) -> Result<(), Fault> {
    assert!(rt; is_greeted_twice(rt)?);
    Ok(())
}

/// Whether a post sends a greeting to a client.
fn sends_greeting<P: Post, N: Net>(net: &N, post: &mut P, path: &str) -> io::Result<bool> {
    let mut client = UnixStream::connect(net, path)?;
    let mut got = [0; 2];
    Ok(greet(post).is_ok() && client.read_exact(&mut got).is_ok() && got == *b"hi")
}

/// Whether each of these posts sends a greeting to a client.
fn send_greetings<P: Post, N: Net>(net: &N, posts: &mut [P], path: &str) -> io::Result<bool> {
    for post in posts.iter_mut() {
        if !sends_greeting(net, post, path)? {
            return Ok(false);
        }
    }
    Ok(true)
}

/// Whether a place has 64 posts, each of which greets a client, through the bound.
fn greets_all<S: Site, N: Net>(net: &N, site: &mut S, place: &Place) -> Result<bool, Fault>
    requires { place.now.workers ≡ 64 }
{
    let mut posts = site.listen(place)?;
    let has_all = posts.len() == 64;
    Ok(has_all && send_greetings(net, posts.as_mut_slice(), place.socket.as_str())?)
}

/// Whether the 64 posts of a new site of a place greet a client each.
fn are_greeted_at(rt: HostRuntime, place: &Place) -> Result<bool, Fault>
    requires { place.now.workers ≡ 64 }
{
    greets_all(&rt, &mut RealSite::new(rt, rt.alloc()), place)
}

/// The same. The place is cleared.
fn are_greeted_once(rt: HostRuntime, place: &Place) -> Result<bool, Fault>
    requires { place.now.workers ≡ 64 }
{
    let are_greeted = are_greeted_at(rt, place)?;
    clear(&rt, place)?;
    Ok(are_greeted)
}

/// The same of a place in the temporary folder.
fn are_greeted(rt: HostRuntime) -> Result<bool, Fault> {
    let mut place = temporary_place(&rt, rt.process(), "shares", "echo")?;
    place.workers = 64;
    are_greeted_once(rt, &place)
}

#[test]
fn sixty_four_posts_accept_from_one_socket(rt: HostRuntime) -> Result<(), Fault> {
    assert!(rt; are_greeted(rt)?);
    Ok(())
}

/// Whether a sending to the next client fails, through the bound.
fn waits_for_client<P: Post>(post: &mut P, bytes: &[u8]) -> Result<bool, Failed> {
    let mut conn = next_client(post)?;
    let sent = post.conn_send(&mut conn, bytes);
    post.hang_up(conn);
    Ok(sent.is_err())
}

/// Whether a sending to a child and a receiving from it fail, through the bound.
fn waits_for_child<P: Post>(post: &mut P, bytes: &[u8]) -> Result<bool, Failed> {
    let mut child = post.start(&PRE)?;
    let sent = child.send(bytes);
    let received = child.recv(&mut [0; 8]);
    post.finish(child);
    Ok(sent.is_err() && received.is_err())
}

/// A program that stays for 50 seconds.
const STAYS: &[u8] = b"#!/bin/sh\nexec sleep 50\n";

/// A program that writes a line at once and one after half a second.
const LATE: &[u8] = b"#!/bin/sh\necho first\nsleep 0.5\necho second\n";

/// Writes a program.
fn write_program<R: FileSystem>(rt: &R, path: &str, text: &[u8]) -> io::Result<()> {
    let mut options = OpenOptions::new();
    options.write(true).create(true).mode(0o700);
    let mut file = options.open(rt, path)?;
    file.write_all(text)
}

/// The path of a program of this text, in the system's temporary folder.
fn program_of(rt: HostRuntime, name: &str, text: &[u8]) -> io::Result<Word> {
    let program = temporary_path(&rt, rt.process(), name)?;
    write_program(&rt, program.as_str(), text)?;
    Ok(program)
}

/// Whether a post waits in vain for a client that receives nothing, and for its child.
fn waits<P: Post, N: Net>(net: &N, post: &mut P, path: &str, bytes: &[u8]) -> io::Result<bool> {
    let client = UnixStream::connect(net, path)?;
    let waits = waits_for_client(post, bytes) == Ok(true)
        && waits_for_child(post, bytes) == Ok(true);
    drop(client);
    Ok(waits)
}

/// Whether a post waits in vain, which sends more than a socket holds.
fn waits_long<P: Post, N: Net>(
    net: &N,
    alloc: Global,
    post: &mut P,
    path: &str,
) -> Result<bool, Fault> {
    let bytes = vec![in alloc; 0u8; 1_000_000]?;
    Ok(waits(net, post, path, bytes.as_slice())?)
}

/// Limits of 20 milliseconds.
fn short_limits() -> Limits {
    let short = Duration::from_millis(20);
    Limits {
        client: short,
        child: short,
        end: short,
        ..Limits::usual()
    }
}

#[test]
fn who_keeps_a_post_waiting_is_a_fault(rt: HostRuntime) -> Result<(), Fault> {
    let program = program_of(rt, "stays", STAYS)?;
    assert!(rt; post_does_by(rt, "waits", program.as_str(), &Trial::Waits)?);
    Ok(())
}

/// Whether neither a client nor a child is heard, and nothing sent, through the bound.
fn hears_nobody<P: Post>(post: &mut P, conn: &mut P::Conn) -> Result<bool, Failed> {
    let mut child = post.start(&PRE)?;
    let client = post.conn_recv(conn, &mut [0; 1]).is_err();
    let sending = post.conn_send(conn, b"x").is_err();
    let receiving = child.recv(&mut [0; 1]).is_err();
    post.finish(child);
    Ok(client && sending && receiving)
}

/// Whether a client that has sent a byte is heard no more once the time for the login is up, nor its
/// child, through the bound.
fn is_up<P: Post>(post: &mut P) -> Result<bool, Failed> {
    let mut conn = next_client(post)?;
    let first = post.conn_recv(&mut conn, &mut [0; 1]).is_ok();
    let is_up = hears_nobody(post, &mut conn) == Ok(true);
    post.hang_up(conn);
    Ok(first && is_up)
}

/// Whether a user's child is heard twice, and then a byte of the client, through the bound.
fn hears_both<P: Post>(post: &mut P, conn: &mut P::Conn, role: &Role) -> Result<bool, Failed> {
    let mut child = post.start(role)?;
    let mut buf = [0; 64];
    let heard = child.recv(&mut buf).is_ok();
    let late = child.recv(&mut buf).is_ok();
    let client = post.conn_recv(conn, &mut buf) == Ok(1);
    post.finish(child);
    Ok(heard && late && client)
}

/// Whether a user's child is heard that sends something after the time for the login is up, and the
/// client too, through the bound.
fn goes_on<P: Post>(post: &mut P, role: &Role) -> Result<bool, Failed> {
    let mut conn = next_client(post)?;
    let goes_on = hears_both(post, &mut conn, role);
    post.hang_up(conn);
    goes_on
}

/// Limits of which the one for a login is short.
fn short_login() -> Limits {
    Limits {
        login: Duration::from_millis(300),
        ..Limits::usual()
    }
}

/// Whether a post hears a client no more once the time for its login is up.
fn ends_login<P: Post, N: Net>(net: &N, post: &mut P, path: &str) -> io::Result<bool> {
    let client = client_at(net, path, b"a")?;
    let is_up = is_up(post) == Ok(true);
    drop(client);
    Ok(is_up)
}

#[test]
fn a_login_has_its_time(rt: HostRuntime) -> Result<(), Fault> {
    let program = program_of(rt, "is-slow", STAYS)?;
    assert!(rt; post_does_by(rt, "login", program.as_str(), &Trial::EndsLogin)?);
    Ok(())
}

/// Whether a post hears its user's child after the time for a login is up.
fn hears_on<P: Post, N: Net>(net: &N, post: &mut P, path: &str, role: &Role) -> io::Result<bool> {
    let client = client_at(net, path, b"a")?;
    let hears = goes_on(post, role) == Ok(true);
    drop(client);
    Ok(hears)
}

/// The role of bob's child in session 7.
fn role_of_bob() -> Option<Role> {
    let user = Name::of(b"bob")?;
    Some(Role::User {
        session: 7,
        uid: 1001,
        user,
    })
}

/// Whether a post with this launcher hears bob's child on. The launcher is removed.
fn hears_bob(rt: HostRuntime, launcher: &str) -> Result<bool, Fault> {
    let role = role_of_bob().ok_or("a name")?;
    post_does_by(rt, "logged_in", launcher, &Trial::HearsOn(&role))
}

#[test]
fn a_user_who_is_logged_in_has_more(rt: HostRuntime) -> Result<(), Fault> {
    let program = program_of(rt, "is-late", LATE)?;
    assert!(rt; hears_bob(rt, program.as_str())?);
    Ok(())
}

/// How many faults the closing of a launcher's child has, that is waited for so long.
fn faults_of(rt: HostRuntime, launcher: &str, end: Duration) -> Result<u64, Fault> {
    let second = Duration::from_secs(1);
    let patience = Patience::until(PostClock::start(&rt), second, 1_000);
    let child = launch(&rt, rt.alloc(), launcher, PRE, patience)?;
    Ok(close(&rt, child, end))
}

/// Whether a launcher's child that is killed has one fault. The launcher is removed.
fn has_a_fault(rt: HostRuntime, launcher: &str) -> Result<bool, Fault> {
    let faults = faults_of(rt, launcher, Duration::from_millis(20))?;
    fs::remove_file(&rt, launcher)?;
    Ok(faults == 1)
}

#[test]
fn a_child_that_is_killed_has_a_fault(rt: HostRuntime) -> Result<(), Fault> {
    let program = program_of(rt, "is-killed", STAYS)?;
    assert!(rt; has_a_fault(rt, program.as_str())?);
    Ok(())
}

#[test]
fn a_child_that_ends_has_no_fault(rt: HostRuntime) -> Result<(), Fault> {
    assert!(rt; faults_of(rt, "echo", Duration::from_secs(1))? == 0);
    Ok(())
}

/// Whether a child writes these bytes and ends, through the bound.
fn writes<P: Post>(post: &mut P, role: &Role, want: &[u8]) -> Result<bool, Failed> {
    let mut child = post.start(role)?;
    let mut buf = [0; 64];
    let first = child.recv(&mut buf)?;
    let is_wanted = &buf[..first] == want;
    let second = child.recv(&mut buf)?;
    post.finish(child);
    Ok(is_wanted && second == 0)
}

#[test]
fn a_child_is_given_its_words(rt: HostRuntime) -> Result<(), Fault> {
    assert!(rt; post_does(rt, "starts", "echo", &Trial::Starts(&PRE, b"child-pre 1\n"))?);
    Ok(())
}

#[test]
fn a_launcher_that_is_not_there_is_a_fault(rt: HostRuntime) -> Result<(), Fault> {
    assert!(rt; post_does(rt, "misses", "/no/such/launcher", &Trial::StartsNone)?);
    Ok(())
}

/// Appends through the bound.
fn append<S: Sink>(sink: &mut S, bytes: &[u8]) -> Result<(), Failed> {
    sink.append(bytes)
}

#[test]
fn a_log_goes_to_standard_error(rt: HostRuntime) -> Result<(), Fault> {
    append(&mut RealSink::new(rt.stderr()), b"1 w0 s1 open permit\n")?;
    Ok(())
}

/// Receives up to 8 bytes through the bound and sends an answer.
fn exchange<E: Stream>(ends: &mut E, answer: &[u8]) -> Result<([u8; 8], usize), Failed> {
    let mut buf = [0; 8];
    let n = ends.recv(&mut buf)?;
    ends.send(answer)?;
    Ok((buf, n))
}

/// Whether the ends over one stream receive a line, and send what the stream's other side then has.
fn are_passed(alloc: Global, ours: UnixStream, theirs: &mut UnixStream) -> io::Result<bool> {
    theirs.write_all(b"phrase\n")?;
    let is_received = {
        let mut ends = RealEnds::new(ours.try_clone()?, ours);
        exchange(&mut ends, b"password") == Ok((*b"phrase\n\0", 7))
    };
    Ok(is_received && comes(alloc, theirs, b"password"))
}

#[test]
fn ends_pass_bytes_both_ways(rt: HostRuntime) -> Result<(), Fault> {
    let (ours, mut theirs) = UnixStream::pair(&rt)?;
    assert!(rt; are_passed(rt.alloc(), ours, &mut theirs)?);
    Ok(())
}

#[test]
fn the_ends_of_the_program_take_no_bytes(rt: HostRuntime) -> Result<(), Fault> {
    RealEnds::new(rt.stdin(), rt.stdout()).send(b"")?;
    Ok(())
}

/// Whether a user's file has so many bytes, and the buffer of zeros holds these then, through the bound.
fn has_bytes<P: Post>(post: &mut P, uid: u32, name: &Label, want: (&[u8; 8], usize)) -> bool {
    let mut buf = [0; 8];
    post.vault_read(uid, name, 0, &mut buf) == Ok(want.1) && buf == *want.0
}

/// Whether bytes are written into a user's file, through the bound.
fn takes<P: Post>(post: &mut P, uid: u32, name: &Label, offset: u64, bytes: &[u8]) -> bool {
    post.vault_write(uid, name, offset, bytes).is_ok()
}

/// Whether a user's file is made, read and kept apart.
fn keeps_files<P: Post>(post: &mut P, name: &Label) -> bool {
    let none = (b"\0\0\0\0\0\0\0\0", 0);
    has_bytes(post, 7, name, none)
        && takes(post, 7, name, 2, b"cd")
        && takes(post, 7, name, 0, b"a")
        && has_bytes(post, 7, name, (b"a\0cd\0\0\0\0", 4))
        && has_bytes(post, 8, name, none)
        // 7 and 65,536
        && has_bytes(post, 65_543, name, none)
}

/// Whether neither reading nor writing a user's file succeeds, through the bound.
fn refuses_file<P: Post>(post: &mut P, uid: u32, name: &Label) -> bool {
    post.vault_read(uid, name, 0, &mut [0; 4]).is_err() && !takes(post, uid, name, 0, b"x")
}

/// The path of a vault of its own.
fn vault_path(alloc: Global, process: Process) -> io::Result<Word> {
    let path = below(alloc, "/tmp", process::id(process))?;
    Ok(Word::of(alloc, path.as_str().as_bytes())?)
}

/// A place like the others, with a vault of its own that isn't there yet.
fn place_with_vault<R: Env + AllocGlobal>(rt: &R, process: Process) -> io::Result<Place>
    ensures { IfOk result (λ place. place.workers ≡ 2) }
{
    let vault = vault_path(rt.alloc(), process)?;
    let mut place = temporary_place(rt, process, "keeps", "echo")?;
    place.vault = vault;
    Ok(place)
}

/// The path of what has this number in a folder.
fn below(alloc: Global, folder: &str, number: u32) -> io::Result<String> {
    Ok(format!(in alloc; "{folder}/{number}")?)
}

/// The path of the user's file in a vault.
fn file_in(alloc: Global, vault: &str) -> io::Result<String> {
    Ok(format!(in alloc; "{vault}/7/notes")?)
}

/// Whether the permissions at a path are these.
fn has_mode<R: FileSystem>(rt: &R, path: &str, mode: u32) -> io::Result<bool> {
    Ok(fs::metadata(rt, path)?.mode() % 0o1000 == mode)
}

/// Whether the user's folder and file are the owner's alone.
fn are_private<R: FileSystem + AllocGlobal>(rt: &R, vault: &str) -> io::Result<bool> {
    let folder = below(rt.alloc(), vault, 7)?;
    let file = file_in(rt.alloc(), vault)?;
    Ok(has_mode(rt, folder.as_str(), 0o700)? && has_mode(rt, file.as_str(), 0o600)?)
}

/// Puts a link to `/etc/passwd` in the place of a file.
fn put_link<R: FileSystem>(rt: &R, file: &str) -> io::Result<()> {
    fs::remove_file(rt, file)?;
    symlink(rt, "/etc/passwd", file)
}

/// Puts a link to the user's folder beside it.
fn link_folder<R: FileSystem + AllocGlobal>(rt: &R, vault: &str) -> io::Result<()> {
    let folder = below(rt.alloc(), vault, 7)?;
    let linked = below(rt.alloc(), vault, 9)?;
    symlink(rt, folder.as_str(), linked.as_str())
}

/// Puts a link in the place of the user's file, and one to the user's folder beside it.
fn put_links<R: FileSystem + AllocGlobal>(rt: &R, vault: &str) -> io::Result<()> {
    link_folder(rt, vault)?;
    let file = file_in(rt.alloc(), vault)?;
    put_link(rt, file.as_str())
}

/// Whether bytes are written up to a user's file's limit, and none that end beyond it, through the bound.
fn ends_at<P: Post>(post: &mut P, name: &Label, limit: u64) -> bool
    requires { 2 ≤ limit }
{
    takes(post, 7, name, limit - 2, b"xy")
        && !takes(post, 7, name, limit - 1, b"xy")
        && !takes(post, 7, name, u64::MAX, b"x")
        && post.vault_read(7, name, limit, &mut [0; 4]) == Ok(0)
}

/// Whether users' files lie in a vault, which isn't there yet, and are their owners' alone.
fn lie_in_vault<P: Post, R: FileSystem + AllocGlobal>(
    rt: &R,
    post: &mut P,
    name: &Label,
    vault: &str,
) -> Result<bool, Fault> {
    let is_refused = refuses_file(post, 7, name);
    fs::create_dir(rt, vault)?;
    let is_kept = keeps_files(post, name) && ends_at(post, name, 16_777_216);
    Ok(is_refused && is_kept && are_private(rt, vault)?)
}

/// Whether no link in a vault is followed. The vault is removed.
fn follows_no_link<P: Post, R: FileSystem + AllocGlobal>(
    rt: &R,
    post: &mut P,
    name: &Label,
    vault: &str,
) -> Result<bool, Fault> {
    put_links(rt, vault)?;
    let are_refused = refuses_file(post, 7, name) && refuses_file(post, 9, name);
    fs::remove_dir_all(rt, vault)?;
    Ok(are_refused)
}

/// Whether the last post of a place keeps users' files in its vault, and follows no link there.
fn keeps_vault<S: Site, R: FileSystem + AllocGlobal>(
    rt: &R,
    site: &mut S,
    place: &Place,
) -> Result<bool, Fault>
    requires { place.now.workers ≡ 2 }
{
    let name = Label::of(b"notes").ok_or("a label")?;
    let vault = place.vault.as_str();
    let mut post = last_post(site, place)?;
    let is_kept = lie_in_vault(rt, &mut post, &name, vault)?;
    Ok(is_kept && follows_no_link(rt, &mut post, &name, vault)?)
}

/// Whether a new site's post keeps users' files in its vault.
fn is_vault_kept_at(rt: HostRuntime, place: &Place) -> Result<bool, Fault>
    requires { place.now.workers ≡ 2 }
{
    keeps_vault(&rt, &mut RealSite::new(rt, rt.alloc()), place)
}

/// The same. The place is cleared.
fn is_vault_kept_once(rt: HostRuntime, place: &Place) -> Result<bool, Fault>
    requires { place.now.workers ≡ 2 }
{
    let is_kept = is_vault_kept_at(rt, place)?;
    clear(&rt, place)?;
    Ok(is_kept)
}

/// The same of a place in the temporary folder.
fn is_vault_kept(rt: HostRuntime) -> Result<bool, Fault> {
    let place = place_with_vault(&rt, rt.process())?;
    is_vault_kept_once(rt, &place)
}

#[test]
fn users_files_lie_in_the_vault_and_no_link_is_followed(rt: HostRuntime) -> Result<(), Fault> {
    assert!(rt; is_vault_kept(rt)?);
    Ok(())
}

/// Whether what a client sends is received, and the clock doesn't go back, through the bound.
fn hears<P: Post>(post: &mut P) -> Result<bool, Failed> {
    let before = post.now();
    let mut conn = next_client(post)?;
    let mut buf = [0; 8];
    let heard = post.conn_recv(&mut conn, &mut buf);
    let end = post.conn_recv(&mut conn, &mut [0; 4]);
    post.hang_up(conn);
    Ok(heard == Ok(5) && buf == *b"hello\0\0\0" && end == Ok(0) && before <= post.now())
}

/// Whether a post hears a client that sends and ends.
fn is_heard<P: Post, N: Net>(net: &N, post: &mut P, path: &str) -> io::Result<bool> {
    let client = client_at(net, path, b"hello")?;
    Ok(client.shutdown(Shutdown::Write).is_ok() && hears(post) == Ok(true))
}

#[test]
fn a_client_is_heard(rt: HostRuntime) -> Result<(), Fault> {
    assert!(rt; post_does(rt, "hears", "echo", &Trial::Hears)?);
    Ok(())
}

#[test]
fn a_users_child_is_given_its_words(rt: HostRuntime) -> Result<(), Fault> {
    let user = Name::of(b"bob").ok_or("a name")?;
    let role = Role::User {
        session: 7,
        uid: 70_001,
        user,
    };
    assert!(rt;
        post_does(
            rt,
            "starts_user",
            "echo",
            &Trial::Starts(&role, b"child-user 7 70001 bob\n")
        )?
    );
    Ok(())
}
