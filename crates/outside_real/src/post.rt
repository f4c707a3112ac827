ghost use Rattle.std.specs.Prelude.{◌≡◌, ◌<◌, ◌≤◌, IfOk, IsSome, None, length};
ghost use Rattle.outside.specs.Faults.{AcceptCounts, ConnCounts, CountNothing, FinishCounts, NoneFell, StartCounts};
ghost use Rattle.outside.specs.Faults.{VaultCounts};
ghost use Rattle.outside_real.specs.RealStream.{faults_of as stream_faults, role_of};
ghost use Rattle.outside.specs.Launching.{launch_words};
ghost use Rattle.request_catalogue.specs.TextBytes.{label_bytes};
ghost use Rattle.std.specs.Process.{command_args, command_program};

use crate::limits::Limits;
use crate::stream::{RealStream, close, command_of, start_child};
use crate::vault::UserFile;
use outside::{Failed, Faults, Place, Post, Role, link_count};
use request_catalogue::Label;
use std::alloc::Global;
use std::fs::File;
use std::io;
use std::net::Net;
use std::os::unix::net::UnixStream;
use std::process::{Command, Processes, SystemProcess};
use std::rt::Files;
use std::time::{Clock, Duration};
use system_calls::counted::counted;
use system_calls::{Patience, PostClock, Seat, read_within, socket, write_within};

/// Where the system tells which thread asks.
const THREAD: &str = "/proc/thread-self";

/// The clients of one listening Unix socket, the child programs that serve them, and the users'
/// files.
#[derive(Drop)]
pub struct RealPost<R> {
    rt: R,
    alloc: Global,
    seat: Seat,
    place: Place,
    limits: Limits,
    clock: PostClock,
    /// When the session that is served was accepted, a moment of the clock in milliseconds.
    begun: u64,
    /// Until when its client and its children may keep the post waiting.
    until: u64,
    accept_error: Option<io::Error>,
    /// By what the system knows the thread in which the post first waited for a connection.
    thread: Option<String>,
    faults: Faults,
}

impl<R> RealPost<R> {
    ghost use Rattle.outside_real.specs.RealPost.{IsFreshPost, IsPostAt, faults_of};

    /// A post of this place, whose launcher starts its children and whose vault has its users' files.
    pub(crate) fn new(
        rt: R,
        alloc: Global,
        seat: Seat,
        place: Place,
        limits: Limits,
        clock: PostClock,
    ) -> RealPost<R>
        ensures fresh { IsFreshPost result }
        ensures at { IsPostAt place result }
    {
        RealPost {
            rt,
            alloc,
            seat,
            place,
            limits,
            clock,
            begun: 0,
            until: u64::MAX,
            accept_error: None,
            thread: None,
            faults: Faults::none(),
        }
    }

    /// How many faults it had, by kind.
    pub fn faults(&self) -> Faults
        ensures { result ≡ faults_of self.now }
    {
        self.faults
    }

    /// Why its last wait for a connection failed, if it did.
    pub fn accept_error(&self) -> Option<io::Error> {
        self.accept_error
    }

    /// Whether it served in the thread in which another post served too.
    pub fn shares_thread(&self, other: &RealPost<R>) -> bool {
        match (&self.thread, &other.thread) {
            (Some(own), Some(others)) => own.as_str() == others.as_str(),
            _ => false,
        }
    }

    /// How long somebody may keep the post waiting: this long each time, and not beyond the session's
    /// end.
    fn patience(&self, each: Duration) -> Patience {
        Patience::until(self.clock, each, self.until)
    }
}

impl<
    R: Processes<Started = SystemProcess> + Files<File = File> + Net + Clock + Clone + Drop + Send,
> Post for RealPost<R> {
    ghost use Rattle.outside_real.specs.RealPost.{faults_of, place_of};

    type Conn = UnixStream;

    type Child = RealStream<R>;

    ghost scene = { λ _. None };

    ghost faults = { faults_of };

    ghost counts_as_told = { λ _. tt };

    /// Waits for the next connection. One always comes, or the wait fails.
    fn accept(&mut self) -> Result<Option<UnixStream>, Failed>
        ensures some { IfOk result IsSome }
        ensures counts { AcceptCounts result (faults_of self.old) (faults_of self.new) }
        ensures kept { NoneFell (faults_of self.old) (faults_of self.new) }
        ensures at { place_of self.new ≡ place_of self.old }
    {
        let accepted = self.next_conn();
        let conn = counted(&mut self.faults.accept, accepted)?;
        self.begin();
        Ok(Some(conn))
    }

    /// Starts a child by the launcher, with the arguments of its role. With a user's child the time for the
    /// whole of a session begins to count, in place of the time for a login.
    fn start(&mut self, role: &Role) -> Result<RealStream<R>, Failed>
        ensures role { IfOk result (λ child. role_of child ≡ role.now) }
        ensures faultless { IfOk result (λ child. stream_faults child ≡ 0) }
        ensures counts { StartCounts result (faults_of self.old) (faults_of self.new) }
        ensures kept { NoneFell (faults_of self.old) (faults_of self.new) }
        ensures at { place_of self.new ≡ place_of self.old }
    {
        if is_users(role) {
            self.until = moment_after(self.begun, self.limits.session);
        }
        let patience = self.patience(self.limits.child);
        let started = self.launch(role, patience);
        counted(&mut self.faults.keeper, started)
    }

    /// Closes the child's socket and waits for its end. That it isn't gone in time, and is killed, is
    /// a fault of its link too.
    fn finish(&mut self, child: RealStream<R>)
        ensures counts { FinishCounts (stream_faults child) (faults_of self.old)
            (faults_of self.new) }
        ensures kept { NoneFell (faults_of self.old) (faults_of self.new) }
        ensures at { place_of self.new ≡ place_of self.old }
    {
        let child_faults = close(&self.rt, child, self.limits.end);
        self.faults.link = link_count(self.faults.link, child_faults);
    }

    /// Closes the connection. The client sees the end of input, even if it had sent something that
    /// nobody read.
    fn hang_up(&mut self, conn: UnixStream)
        ensures counts { CountNothing (faults_of self.old) (faults_of self.new) }
        ensures kept { NoneFell (faults_of self.old) (faults_of self.new) }
        ensures at { place_of self.new ≡ place_of self.old }
    {
        socket::close(conn);
    }

    /// Receives what the client sends.
    fn conn_recv(&mut self, conn: &mut UnixStream, buf: &mut [u8]) -> Result<usize, Failed>
        ensures bound { IfOk result (λ n. n ≤ length buf.old) }
        ensures counts { ConnCounts result (faults_of self.old) (faults_of self.new) }
        ensures kept { NoneFell (faults_of self.old) (faults_of self.new) }
        ensures at { place_of self.new ≡ place_of self.old }
    {
        let mut patience = self.patience(self.limits.client);
        let outcome = read_within(&self.rt, conn, &mut patience, buf);
        counted(&mut self.faults.conn, outcome)
    }

    /// Sends all bytes to the client.
    fn conn_send(&mut self, conn: &mut UnixStream, bytes: &[u8]) -> Result<(), Failed>
        ensures counts { ConnCounts result (faults_of self.old) (faults_of self.new) }
        ensures kept { NoneFell (faults_of self.old) (faults_of self.new) }
        ensures at { place_of self.new ≡ place_of self.old }
    {
        let mut patience = self.patience(self.limits.client);
        let outcome = write_within(&self.rt, conn, &mut patience, bytes);
        counted(&mut self.faults.conn, outcome)
    }

    /// Reads the file `uid/name` of the vault. What isn't a regular file is a fault.
    fn vault_read(
        &mut self,
        uid: u32,
        name: &Label,
        offset: u64,
        buf: &mut [u8],
    ) -> Result<usize, Failed>
        ensures bound { IfOk result (λ n. n ≤ length buf.old) }
        ensures counts { VaultCounts result (faults_of self.old) (faults_of self.new) }
        ensures kept { NoneFell (faults_of self.old) (faults_of self.new) }
        ensures at { place_of self.new ≡ place_of self.old }
    {
        let outcome = self.read_file(uid, name, offset, buf);
        counted(&mut self.faults.vault, outcome)
    }

    /// Writes into the file `uid/name` of the vault, which is made where it is missing, with its
    /// folder. What isn't a regular file is a fault.
    fn vault_write(
        &mut self,
        uid: u32,
        name: &Label,
        offset: u64,
        bytes: &[u8],
    ) -> Result<(), Failed>
        ensures counts { VaultCounts result (faults_of self.old) (faults_of self.new) }
        ensures kept { NoneFell (faults_of self.old) (faults_of self.new) }
        ensures at { place_of self.new ≡ place_of self.old }
    {
        let outcome = self.write_file(uid, name, offset, bytes);
        counted(&mut self.faults.vault, outcome)
    }

    /// The milliseconds since the site listened, from a clock that doesn't go back. Where it can't
    /// be read, the post's last moment.
    fn now(&mut self) -> u64
        ensures counts { CountNothing (faults_of self.old) (faults_of self.new) }
        ensures kept { NoneFell (faults_of self.old) (faults_of self.new) }
        ensures at { place_of self.new ≡ place_of self.old }
    {
        self.clock.now(&self.rt)
    }
}

impl<R: Processes<Started = SystemProcess> + Net + Clone + Drop> RealPost<R> {
    ghost use Rattle.outside_real.specs.RealPost.{place_of};

    /// The command for a child of this role: the place's launcher with the words of the role.
    fn command_for(&self, role: &Role) -> io::Result<Command>
        ensures program { IfOk result (λ command.
            command_program command ≡ (place_of self.now).launcher) }
        ensures words { IfOk result (λ command. command_args command ≡ launch_words role.now) }
    {
        command_of(self.alloc, self.place.launcher.as_str(), role)
    }

    /// Starts a child of this role by the place's launcher.
    fn launch(&self, role: &Role, patience: Patience) -> io::Result<RealStream<R>>
        ensures role { IfOk result (λ child. role_of child ≡ role.now) }
        ensures faultless { IfOk result (λ child. stream_faults child ≡ 0) }
    {
        let command = &mut self.command_for(role)?;
        let launcher = self.place.launcher.as_str();
        start_child(&self.rt, launcher, command, *role, patience)
    }
}

impl<R: Clock> RealPost<R> {
    ghost use Rattle.outside_real.specs.RealPost.{faults_of, place_of};

    /// Keeps when the session that was just accepted began, and until when it has time for its login.
    fn begin(&mut self)
        ensures faults { faults_of self.new ≡ faults_of self.old }
        ensures at { place_of self.new ≡ place_of self.old }
    {
        self.begun = self.clock.now(&self.rt);
        self.until = moment_after(self.begun, self.limits.login);
    }
}

impl<R: Files<File = File>> RealPost<R> {
    ghost use Rattle.outside_real.specs.RealPost.{faults_of, place_of};
    ghost use Rattle.outside_real.specs.UsersFiles.{IsUsersFile};

    /// Keeps by what the system knows this thread, where it is the first in which the post waits.
    fn note_thread(&mut self)
        ensures faults { faults_of self.new ≡ faults_of self.old }
        ensures at { place_of self.new ≡ place_of self.old }
    {
        if self.thread.is_none() {
            self.thread = match self.rt.canonicalize(self.alloc, THREAD) {
                Ok(path) => Some(path.into_string()),
                Err(_) => None,
            };
        }
    }

    /// The next connection. Why there is none is kept.
    fn next_conn(&mut self) -> io::Result<UnixStream>
        ensures faults { faults_of self.new ≡ faults_of self.old }
        ensures at { place_of self.new ≡ place_of self.old }
    {
        self.note_thread();
        let accepted = self.seat.accept();
        self.accept_error = match &accepted {
            Ok(_) => None,
            Err(error) => Some(*error),
        };
        accepted
    }

    /// The file of this user and name in the place's vault.
    fn users_file(&self, uid: u32, name: &Label) -> io::Result<UserFile>
        ensures { IfOk result (λ file.
            IsUsersFile (place_of self.now).vault uid (label_bytes name.now) file) }
    {
        UserFile::of(&self.rt, self.alloc, self.place.vault.as_str(), uid, name)
    }

    /// Reads a user's file.
    fn read_file(&self, uid: u32, name: &Label, offset: u64, buf: &mut [u8]) -> io::Result<usize>
        ensures { IfOk result (λ n. n ≤ length buf.old) }
    {
        let file = self.users_file(uid, name)?;
        file.read(&self.rt, offset, buf)
    }

    /// Writes into a user's file.
    fn write_file(&self, uid: u32, name: &Label, offset: u64, bytes: &[u8]) -> io::Result<()> {
        let file = self.users_file(uid, name)?;
        file.write(&self.rt, offset, bytes)
    }
}

/// Whether the child of this role is a user's.
fn is_users(role: &Role) -> bool {
    match role {
        Role::Pre { session: _ } => false,
        Role::User { .. } => true,
    }
}

/// The moment that is this long after another, in milliseconds.
fn moment_after(moment: u64, time: Duration) -> u64 {
    moment.saturating_add(u64::try_from(time.as_millis()).unwrap_or(u64::MAX))
}
