ghost use Rattle.std.specs.Prelude.{◌≡◌, ◌≤◌, ◌∷◌, [], IfOk, None, OnOk, codes, length, true};
ghost use Rattle.std.specs.Process.{command_args, command_program};
ghost use Rattle.outside.specs.Faults.{count_after};
ghost use Rattle.outside.specs.Launching.{launch_words};

use outside::{Failed, Role, Stream};
use std::alloc::Global;
use std::io;
use std::io::ErrorKind;
use std::net::Net;
use std::os::fd::OwnedFd;
use std::os::unix::net::UnixStream;
use std::process::{Child, Command, Processes, Stdio, SystemProcess};
use std::time::{Clock, Duration};
use system_calls::counted::counted;
use system_calls::{Patience, has_ended, read_within, socket, write_within};

/// The word that tells a launcher to start the child before the login.
const PRE_MODE: &str = "child-pre";

/// The word that tells a launcher to start a user's child.
const USER_MODE: &str = "child-user";

/// A child program, over a socket that is both its standard input and its standard output.
#[derive(Drop)]
pub struct RealStream<R> {
    rt: R,
    program: Child<SystemProcess>,
    socket: UnixStream,
    patience: Patience,
    role: Role,
    faults: u64,
}

impl<R: Clock + Drop + Send> Stream for RealStream<R> {
    ghost use Rattle.outside_real.specs.RealStream.{faults_of, role_of};

    ghost link = { λ _. None };

    ghost faults = { faults_of };

    ghost role = { role_of };

    fn recv(&mut self, buf: &mut [u8]) -> Result<usize, Failed>
        ensures bound { IfOk result (λ n. n ≤ length buf.old) }
        ensures counts { faults_of self.new ≡ count_after result (faults_of self.old) }
        ensures kept { faults_of self.old ≤ faults_of self.new }
        ensures role { role_of self.new ≡ role_of self.old }
    {
        let outcome = receive(&self.rt, &mut self.socket, &mut self.patience, buf);
        counted(&mut self.faults, outcome)
    }

    fn send(&mut self, bytes: &[u8]) -> Result<(), Failed>
        ensures counts { faults_of self.new ≡ count_after result (faults_of self.old) }
        ensures kept { faults_of self.old ≤ faults_of self.new }
        ensures role { role_of self.new ≡ role_of self.old }
    {
        let outcome = write_within(&self.rt, &mut self.socket, &mut self.patience, bytes);
        counted(&mut self.faults, outcome)
    }
}

/// Reads what a child sent. One that ended without reading all that it was sent resets the socket,
/// after all that it had sent itself: that is the end of input too.
fn receive<C: Clock>(
    clock: &C,
    socket: &mut UnixStream,
    patience: &mut Patience,
    buf: &mut [u8],
) -> io::Result<usize>
    ensures { IfOk result (λ n. n ≤ length buf.new) }
{
    match read_within(clock, socket, patience, buf) {
        Err(error) if error.kind() == ErrorKind::ConnectionReset => Ok(0),
        outcome => outcome,
    }
}

/// The launcher's command for a child of this role. Its standard error goes nowhere.
pub fn command_of(alloc: Global, launcher: &str, role: &Role) -> io::Result<Command>
    ensures program { IfOk result (λ command. command_program command ≡ launcher.now) }
    ensures words { IfOk result (λ command. command_args command ≡ launch_words role.now) }
{
    let mut command = Command::new(alloc, launcher)?;
    give_words(alloc, &mut command, role)?;
    command.stderr(Stdio::null());
    Ok(command)
}

/// Gives a command without words those of a role. That the command stays with the caller is what
/// keeps the proof short.
fn give_words(alloc: Global, command: &mut Command, role: &Role) -> io::Result<()>
    requires { command_args command.now ≡ [] }
    ensures program { OnOk result (command_program command.new ≡ command_program command.old) }
    ensures words { OnOk result (command_args command.new ≡ launch_words role.now) }
{
    match role {
        Role::Pre { session } => {
            let session = format!(in alloc; "{session}")?;
            give_session(command, session.as_str())
        }
        Role::User { session, uid, user } => {
            let session = format!(in alloc; "{session}")?;
            let uid = format!(in alloc; "{uid}")?;
            give_user(command, session.as_str(), uid.as_str(), user.as_slice())
        }
    }
}

/// Gives a command without words those of a child before the login.
fn give_session(command: &mut Command, session: &str) -> io::Result<()>
    requires { command_args command.now ≡ [] }
    ensures program { OnOk result (command_program command.new ≡ command_program command.old) }
    ensures words { OnOk result (command_args command.new ≡ codes "child-pre" ∷ session.now ∷ []) }
{
    command.arg(PRE_MODE)?.arg(session)?;
    Ok(())
}

/// Gives a command without words those of a user's child.
fn give_user(command: &mut Command, session: &str, uid: &str, user: &[u8]) -> io::Result<()>
    requires { command_args command.now ≡ [] }
    ensures program { OnOk result (command_program command.new ≡ command_program command.old) }
    ensures words { OnOk result (command_args command.new ≡ codes "child-user" ∷ session.now ∷ uid.now ∷ user.now
        ∷ []) }
{
    command.arg(USER_MODE)?.arg(session)?;
    let Ok(user) = str::from_utf8(user) else {
        return Err(io::Error::from(ErrorKind::InvalidInput));
    };
    command.arg(uid)?.arg(user)?;
    Ok(())
}

/// Starts a child of this role by the launcher, which may keep its post waiting for this long.
pub fn launch<R: Processes<Started = SystemProcess> + Net + Clone + Drop>(
    rt: &R,
    alloc: Global,
    launcher: &str,
    role: Role,
    patience: Patience,
) -> io::Result<RealStream<R>>
    ensures role { IfOk result (λ child. child.role ≡ role) }
    ensures faultless { IfOk result (λ child. child.faults ≡ 0) }
{
    let command = &mut command_of(alloc, launcher, &role)?;
    start_child(rt, launcher, command, role, patience)
}

/// Starts a child of this role by its command, which is the launcher's with the words of the role.
pub(crate) fn start_child<R: Processes<Started = SystemProcess> + Net + Clone + Drop>(
    rt: &R,
    launcher: &str,
    command: &mut Command,
    role: Role,
    patience: Patience,
) -> io::Result<RealStream<R>>
    requires program { command_program command.now ≡ launcher.now }
    requires words { command_args command.now ≡ launch_words role }
    ensures role { IfOk result (λ child. child.role ≡ role) }
    ensures faultless { IfOk result (λ child. child.faults ≡ 0) }
{
    let pair = start_pair(rt, launcher, command, &role)?;
    stream_of(rt, pair, role, patience)
}

/// The stream of a child that was just started, over its program and its socket.
fn stream_of<R: Clone>(
    rt: &R,
    pair: (Child<SystemProcess>, UnixStream),
    role: Role,
    patience: Patience,
) -> io::Result<RealStream<R>>
    ensures role { IfOk result (λ child. child.role ≡ role) }
    ensures faultless { IfOk result (λ child. child.faults ≡ 0) }
{
    let rt = rt.clone()?;
    let (program, socket) = pair;
    Ok(RealStream {
        rt,
        program,
        socket,
        patience,
        role,
        faults: 0,
    })
}

/// Starts the program of a child, and gives the socket that leads to it.
fn start_pair<R: Processes<Started = SystemProcess> + Net>(
    rt: &R,
    launcher: &str,
    command: &mut Command,
    role: &Role,
) -> io::Result<(Child<SystemProcess>, UnixStream)>
    requires program { command_program command.now ≡ launcher.now }
    requires words { command_args command.now ≡ launch_words role.now }
{
    let (ours, theirs) = UnixStream::pair(rt)?;
    match start(rt, launcher, command, role, theirs) {
        Ok(program) => Ok((program, ours)),
        Err(error) => Err(error),
    }
}

/// Starts the program of a child, whose standard input and output are both this socket.
fn start<R: Processes<Started = SystemProcess>>(
    rt: &R,
    launcher: &str,
    command: &mut Command,
    role: &Role,
    socket: UnixStream,
) -> io::Result<Child<SystemProcess>>
    requires program { command_program command.now ≡ launcher.now }
    requires words { command_args command.now ≡ launch_words role.now }
{
    let socket = OwnedFd::from(socket);
    command.stdin(socket.try_clone()?).stdout(socket);
    spawn(rt, launcher, command, role)
}

/// Starts the program of a command, which is the launcher's with the words of the role.
fn spawn<R: Processes<Started = SystemProcess>>(
    rt: &R,
    launcher: &str,
    command: &mut Command,
    role: &Role,
) -> io::Result<Child<SystemProcess>>
    requires program { command_program command.now ≡ launcher.now }
    requires words { command_args command.now ≡ launch_words role.now }
{
    command.spawn(rt)
}

/// Closes the child's socket and waits for its end. One that isn't gone in time is killed. The
/// answer is the child's faults from its start to its end, with one more where it was killed.
pub fn close<R: Clock + Drop>(rt: &R, child: RealStream<R>, limit: Duration) -> u64
    ensures { child.faults ≤ result }
{
    let RealStream {
        rt: _,
        mut program,
        socket,
        patience: _,
        role: _,
        faults,
    } = child;
    socket::close(socket);
    if has_ended(rt, &mut program, limit).unwrap_or(false) {
        return faults;
    }
    // Where it can't be killed, waiting for it could last for ever.
    if program.kill().is_ok() {
        let _ = program.wait();
    }
    faults.saturating_add(1)
}
