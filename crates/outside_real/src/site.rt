ghost use Rattle.std.specs.Prelude.{◌≡◌, All, IfOk, None, vec_len};
ghost use Rattle.outside.specs.Faults.{count_after};
ghost use Rattle.outside_real.specs.RealPost.{IsFreshPost, IsPostAt};

use crate::limits::Limits;
use crate::look::{lacking_path, look_at};
use crate::post::RealPost;
use outside::{Failed, Place, Site, Word};
use std::alloc::Global;
use std::fs::File;
use std::io;
use std::io::Write;
use std::net::Net;
use std::process::{Processes, SystemProcess};
use std::rt::Files;
use std::time::Clock;
use system_calls::counted::counted;
use system_calls::{LogStderr, PostClock, Seat};

/// The machine's site: it listens on a Unix socket.
#[derive(Drop)]
pub struct RealSite<R> {
    rt: R,
    alloc: Global,
    limits: Limits,
    looks: bool,
    notice: Option<Notice>,
    failure: Option<ListenFailure>,
    listen_faults: u64,
}

/// What is said once a site listens.
#[derive(Drop)]
pub struct Notice {
    /// Where it is said. Whether it takes it doesn't matter.
    pub stderr: LogStderr,
    /// The text, with the newline at its end.
    pub text: String,
}

/// Why a site could not listen.
#[derive(Drop)]
pub struct ListenFailure {
    /// The path of the socket, or of the vault or the launcher that isn't as it has to be.
    pub path: Word,
    /// What the system said.
    pub error: io::Error,
}

impl<R> RealSite<R> {
    ghost use Rattle.outside_real.specs.RealSite.{listen_faults_of};

    /// A site that reaches the system by this runtime, with the usual limits.
    pub fn new(rt: R, alloc: Global) -> RealSite<R>
        ensures faultless { listen_faults_of result ≡ 0 }
    {
        RealSite::with_limits(rt, alloc, Limits::usual())
    }

    /// The same, with other limits.
    pub fn with_limits(rt: R, alloc: Global, limits: Limits) -> RealSite<R>
        ensures faultless { listen_faults_of result ≡ 0 }
    {
        RealSite {
            rt,
            alloc,
            limits,
            looks: false,
            notice: None,
            failure: None,
            listen_faults: 0,
        }
    }

    /// The same site, which listens only where the place's vault is there and its launcher can be run.
    pub fn that_looks(mut self) -> RealSite<R>
        ensures faults { listen_faults_of result ≡ listen_faults_of self }
    {
        self.looks = true;
        self
    }

    /// The same site, which says this once it listens.
    pub fn that_says(mut self, notice: Notice) -> RealSite<R>
        ensures faults { listen_faults_of result ≡ listen_faults_of self }
    {
        self.notice = Some(notice);
        self
    }

    /// Why it could not listen the last time, if it could not.
    pub fn failure(&self) -> Option<&ListenFailure> {
        self.failure.as_ref()
    }
}

impl<
    R: Processes<Started = SystemProcess> + Files<File = File> + Net + Clock + Clone + Drop + Send,
> Site for RealSite<R> {
    ghost use Rattle.outside_real.specs.RealSite.{listen_faults_of};

    type Post = RealPost<R>;

    ghost listens = { λ _. None };

    ghost listen_faults = { listen_faults_of };

    /// Binds the socket in place of one that an earlier run left there.
    fn listen(&mut self, place: &Place) -> Result<Vec<RealPost<R>>, Failed>
        ensures workers { IfOk result (λ posts. vec_len posts ≡ place.now.workers) }
        ensures fresh { IfOk result (λ posts. All IsFreshPost posts.items) }
        ensures from { IfOk result (λ posts. All (IsPostAt place.now) posts.items) }
        ensures counts { listen_faults_of self.new
            ≡ count_after result (listen_faults_of self.old) }
    {
        let opened = open_posts(self, place);
        self.note(place, opened.as_ref().err().copied());
        counted(&mut self.listen_faults, opened)
    }
}

impl<R: Files<File = File>> RealSite<R> {
    ghost use Rattle.outside_real.specs.RealSite.{listen_faults_of};

    /// Keeps why it could not listen at a place, or says what is to be said where it could.
    fn note(&mut self, place: &Place, error: Option<io::Error>)
        ensures { listen_faults_of self.new ≡ listen_faults_of self.old }
    {
        self.failure = match error {
            Some(error) => failure_at(self, place, error),
            None => None,
        };
        if error.is_none() {
            say(&mut self.notice);
        }
    }
}

/// Says what is to be said, if there is something.
fn say(notice: &mut Option<Notice>) {
    if let Some(notice) = notice {
        let _ = notice.stderr.write_all(notice.text.as_bytes());
    }
}

/// Where a listening failed. `None`: there is no memory to tell it.
fn failure_at<R: Files<File = File>>(
    site: &RealSite<R>,
    place: &Place,
    error: io::Error,
) -> Option<ListenFailure> {
    let lacking = match site.looks {
        true => lacking_path(&site.rt, place),
        false => None,
    };
    let path = lacking.unwrap_or(&place.socket).copy(site.alloc).ok()?;
    Some(ListenFailure { path, error })
}

/// Takes the place's socket, and gives each worker a post on it.
fn open_posts<R: Files<File = File> + Net + Clock + Clone + Drop>(
    site: &RealSite<R>,
    place: &Place,
) -> io::Result<Vec<RealPost<R>>>
    ensures workers { IfOk result (λ posts. vec_len posts ≡ place.now.workers) }
    ensures fresh { IfOk result (λ posts. All IsFreshPost posts.items) }
    ensures from { IfOk result (λ posts. All (IsPostAt place.now) posts.items) }
{
    if site.looks {
        look_at(&site.rt, place)?;
    }
    let seat = Seat::take(&site.rt, site.alloc, place.socket.as_str())?;
    posts_on(site, &seat, place)
}

/// Gives each worker a post on this seat. Their clocks start at one moment.
fn posts_on<R: Clock + Clone + Drop>(
    site: &RealSite<R>,
    seat: &Seat,
    place: &Place,
) -> io::Result<Vec<RealPost<R>>>
    ensures workers { IfOk result (λ posts. vec_len posts ≡ place.now.workers) }
    ensures fresh { IfOk result (λ posts. All IsFreshPost posts.items) }
    ensures from { IfOk result (λ posts. All (IsPostAt place.now) posts.items) }
{
    let clock = PostClock::start(&site.rt);
    let mut posts = Vec::new(site.alloc);
    for _ in 0..place.workers {
        posts.push(post_on(site, seat, place, clock)?)?;
    }
    Ok(posts)
}

/// A post of this place on another handle of the seat.
fn post_on<R: Clone + Drop>(
    site: &RealSite<R>,
    seat: &Seat,
    place: &Place,
    clock: PostClock,
) -> io::Result<RealPost<R>>
    ensures fresh { IfOk result (λ post. IsFreshPost post) }
    ensures from { IfOk result (λ post. IsPostAt place.now post) }
{
    let place = place.copy(site.alloc)?;
    post_at(site, seat, place, clock)
}

/// The same, which takes the place.
fn post_at<R: Clone + Drop>(
    site: &RealSite<R>,
    seat: &Seat,
    place: Place,
    clock: PostClock,
) -> io::Result<RealPost<R>>
    ensures fresh { IfOk result (λ post. IsFreshPost post) }
    ensures from { IfOk result (λ post. IsPostAt place post) }
{
    let rt = site.rt.clone()?;
    let seat = seat.try_clone()?;
    Ok(RealPost::new(rt, site.alloc, seat, place, site.limits, clock))
}
