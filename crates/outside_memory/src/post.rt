ghost use Rattle.std.specs.Prelude.{◌≡◌, ◌↔◌, ◌<◌, ◌≤◌, [], All, IfOk, IfSome, IsSome, IsTrue, length, None, OnErr};
ghost use Rattle.std.specs.Prelude.{OnOk, option_map, Some};
ghost use Rattle.request_catalogue.specs.TextBytes.{label_bytes};
ghost use Rattle.outside.specs.Faults.{AreCounts};
ghost use Rattle.outside.specs.Told.{Goes};
ghost use Rattle.outside_memory.specs.Transcript.{AreTold, HasCome};
ghost use Rattle.outside_memory.specs.Vaults.{FileSet};
ghost use Rattle.std.proofs.Props.{props};

use crate::buffers::Buffers;
use crate::fail::Fail;
use crate::repeating::Repeating;
use crate::script::Script;
use crate::shelf::Shelf;
use crate::transcript::Transcript;
use outside::{Act, Faults, Talk};
use request_catalogue::Label;
use std::alloc::{AllocError, Global};

/// How many calls of each kind were made.
#[derive(Drop)]
pub(crate) struct CallsMade {
    pub(crate) accepts: u64,
    pub(crate) starts: u64,
    pub(crate) conn_recvs: u64,
    pub(crate) conn_sends: u64,
    pub(crate) vault_reads: u64,
    pub(crate) vault_writes: u64,
}

/// A post in memory, whose clients and children go by scripts. It tells up to `room` acts, as long
/// as memory is found for them and each child that is given back tells.
#[derive(Drop)]
pub struct MemPost {
    pub(crate) alloc: Global,
    pub(crate) scripts: Vec<Script>,
    pub(crate) came: usize,
    pub(crate) cuts: Vec<usize>,
    pub(crate) moments: Repeating<u64>,
    pub(crate) shelf: Shelf,
    pub(crate) tells_files: bool,
    pub(crate) transcript: Transcript,
    pub(crate) fails: Vec<Fail>,
    pub(crate) child_fails: Vec<Fail>,
    pub(crate) made: CallsMade,
    pub(crate) faults: Faults,
    ghost in_scripts: { came ≤ length scripts.items },
    ghost each_cut: { All (λ c. 1 ≤ c) cuts.items } by { Prim.hlevel props },
    ghost some_cut: { 0 < length cuts.items },
    ghost some_moment: { 0 < length moments },
    ghost counted: { HasCome transcript came },
    ghost told: { AreTold transcript scripts faults } by { Prim.hlevel props },
}

impl MemPost {
    ghost use Rattle.outside_memory.specs.MemPost.{faults_of, post_schedule, scene_of, users_files};
    ghost use Rattle.outside_memory.specs.Script.{plan_of};

    /// A post to which one connection comes for each script, with no user's file. Its children and
    /// clients give their bytes in pieces of the lengths `cuts`, and its clock gives `moments`; the
    /// last of each repeats. Its calls fail exactly where `fails` lists them; the entries for a
    /// stream's receiving and sending count the calls on the first child that it starts.
    pub fn new(
        alloc: Global,
        scripts: Vec<Script>,
        cuts: &[usize],
        moments: &[u64],
        room: usize,
        fails: &[Fail],
    ) -> Result<MemPost, AllocError>
        requires some_cut { 0 < length cuts.now }
        requires each_cut { All (λ c. 1 ≤ c) cuts.now }
        requires some_moment { 0 < length moments.now }
        ensures scene { IfOk result (λ p. scene_of p
            ≡ Some (record { acts = []; talks = []; unread = []; plan = plan_of scripts.items })) }
        ensures faultless { IfOk result (λ p. AreCounts 0 0 0 0 0 (faults_of p)) }
        ensures files { IfOk result (λ p. users_files p ≡ Some (λ uid name. None)) }
        ensures schedule { IfOk result (λ p. post_schedule p ≡ record {
          fails = fails.now;
          child_fails = fails.now;
          cuts = cuts.now;
          moments = moments.now;
          room = room;
          scripts = scripts.items;
          came = 0;
          made = record {
            accepts = 0;
            starts = 0;
            conn_recvs = 0;
            conn_sends = 0;
            vault_reads = 0;
            vault_writes = 0;
          };
        }) }
    {
        Ok(MemPost {
            alloc,
            scripts,
            came: 0,
            cuts: Vec::from_slice(alloc, cuts)?,
            moments: Repeating::of(alloc, moments)?,
            shelf: Shelf::new(alloc, &[], Buffers::growing(alloc))?,
            tells_files: true,
            transcript: Transcript::new(alloc, room),
            fails: Vec::from_slice(alloc, fails)?,
            child_fails: Vec::from_slice(alloc, fails)?,
            made: CallsMade {
                accepts: 0,
                starts: 0,
                conn_recvs: 0,
                conn_sends: 0,
                vault_reads: 0,
                vault_writes: 0,
            },
            faults: Faults::none(),
        })
    }

    /// Sets a user's file. If memory runs out nothing is changed.
    pub fn keep(&mut self, uid: u32, name: &Label, bytes: &[u8]) -> Result<(), AllocError>
        ensures ok { OnOk result (Goes (FileSet uid (label_bytes name.now) bytes.now)
            (users_files self.old) (users_files self.new)) }
        ensures err { OnErr result (users_files self.new ≡ users_files self.old) }
        ensures scene { scene_of self.new ≡ scene_of self.old }
        ensures faults { faults_of self.new ≡ faults_of self.old }
        ensures schedule { post_schedule self.new ≡ post_schedule self.old }
    {
        if self.shelf.put(uid, name.as_slice(), bytes) {
            Ok(())
        } else {
            Err(AllocError)
        }
    }

    /// A user's file, where it tells that. `None`: there is no such file.
    pub fn user_file(&self, uid: u32, name: &Label) -> Option<&[u8]>
        ensures { IfSome (users_files self.now) (λ files.
            option_map (λ bytes. bytes.now) result ≡ files uid (label_bytes name.now)) }
    {
        self.shelf.find(uid, name.as_slice())
    }

    /// Whether it tells what was asked of it.
    pub fn tells(&self) -> bool
        ensures { IsTrue result ↔ IsSome (scene_of self.now) }
    {
        self.transcript.telling
    }

    /// The acts, where it tells them.
    pub fn acts(&self) -> &[Act]
        ensures acts { IfSome (scene_of self.now) (λ scene. result.now ≡ scene.acts) }
        ensures within_room { length result.now ≤ (post_schedule self.now).room }
    {
        self.transcript.acts.as_slice()
    }

    /// What passed with the children that were given back, where it tells that.
    pub fn talks(&self) -> &[Talk]
        ensures { IfSome (scene_of self.now) (λ scene. result.now ≡ scene.talks) }
    {
        self.transcript.talks.as_slice()
    }
}
