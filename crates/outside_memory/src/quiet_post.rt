ghost use Rattle.std.specs.Prelude.{◌≡◌, ◌↔◌, ◌<◌, ◌≤◌, [], All, IfOk, IfSome, IsOk, IsSome, IsTrue, length, None};
ghost use Rattle.std.specs.Prelude.{OnErr, OnOk, option_map, Some, true};
ghost use Rattle.request_catalogue.specs.TextBytes.{label_bytes};
ghost use Rattle.outside.specs.Faults.{AreCounts};
ghost use Rattle.outside.specs.Told.{Goes};
ghost use Rattle.outside_memory.specs.Vaults.{FileSet};
ghost use Rattle.outside_memory.specs.Pieces.{fits_file, without};
ghost use Rattle.outside.specs.Faults.{no_faults};
ghost use Rattle.outside_memory.specs.Transcript.{AreTold, HasCome, HasTakenRoom};
ghost use Rattle.std.proofs.Props.{props};

use crate::blanks::Blanks;
use crate::buffers::Buffers;
use crate::repeating::Repeating;
use crate::room::PostRoom;
use crate::script::Script;
use crate::shelf::Shelf;
use crate::transcript::Transcript;
use outside::{Act, Talk};
use request_catalogue::Label;
use std::alloc::{AllocError, Global};

/// A post with fixed room, whose clients and children go by scripts. It tells what is asked of it as
/// long as that fits the room and each child that is given back tells.
#[derive(Drop)]
pub struct QuietPost {
    pub(crate) scripts: Vec<Script>,
    pub(crate) came: usize,
    pub(crate) moments: Repeating<u64>,
    pub(crate) blanks: Blanks,
    pub(crate) shelf: Shelf,
    pub(crate) transcript: Transcript,
    ghost in_scripts: { came ≤ length scripts.items },
    ghost some_moment: { 0 < length moments },
    ghost counted: { HasCome transcript came },
    ghost told: { AreTold transcript scripts no_faults } by { Prim.hlevel props },
    ghost fixed: { IsTrue shelf.buffers.fixed },
    ghost taken: { HasTakenRoom transcript } by { Prim.hlevel props },
}

impl QuietPost {
    ghost use Rattle.outside_memory.specs.Script.{plan_of};
    ghost use Rattle.outside_memory.specs.QuietPost.{faults_of, post_stock, scene_of, users_files};

    /// A post to which one connection comes for each script, with no user's file. Its children and
    /// clients give their bytes in pieces of the lengths `cuts`, and its clock gives `moments`; the
    /// last of each repeats. All its room is taken here.
    pub fn new(
        alloc: Global,
        scripts: Vec<Script>,
        cuts: &[usize],
        moments: &[u64],
        room: PostRoom,
    ) -> Result<QuietPost, AllocError>
        requires some_cut { 0 < length cuts.now }
        requires each_cut { All (λ c. 1 ≤ c) cuts.now }
        requires some_moment { 0 < length moments.now }
        ensures scene { IfOk result (λ p. scene_of p
            ≡ Some (record { acts = []; talks = []; unread = []; plan = plan_of scripts.items })) }
        ensures faultless { IfOk result (λ p. AreCounts 0 0 0 0 0 (faults_of p)) }
        ensures files { IfOk result (λ p. users_files p ≡ Some (λ uid name. None)) }
        ensures stock { IfOk result (λ p. post_stock p ≡ record {
          telling = true;
          acts = room.acts;
          talks = room.talks;
          streams = room.talks;
          stream_size = room.pieces.size;
          pieces = room.pieces;
          cuts = cuts.now;
          moments = moments.now;
          scripts = scripts.items;
          came = 0;
        }) }
    {
        Ok(QuietPost {
            scripts,
            came: 0,
            moments: Repeating::of(alloc, moments)?,
            blanks: Blanks::new(alloc, room.talks, cuts, room.pieces.size)?,
            shelf: Shelf::new(alloc, &[], Buffers::fixed(alloc, room.pieces)?)?,
            transcript: Transcript::with_room(alloc, room.acts, room.talks)?,
        })
    }

    /// Sets a user's file. Where two buffers for the name and the bytes aren't left, nothing is
    /// changed.
    pub fn keep(&mut self, uid: u32, name: &Label, bytes: &[u8]) -> Result<(), AllocError>
        ensures ok { OnOk result (Goes (FileSet uid (label_bytes name.now) bytes.now)
            (users_files self.old) (users_files self.new)) }
        ensures err { OnErr result (self.new ≡ self.old) }
        ensures fits { IsOk result ↔ IsTrue (fits_file (post_stock self.old).pieces
            (length (label_bytes name.now)) (length bytes.now)) }
        ensures scene { scene_of self.new ≡ scene_of self.old }
        ensures stock { OnOk result (post_stock self.new ≡ record (post_stock self.old) {
          pieces = without 2 (post_stock self.old).pieces;
        }) }
    {
        if self.shelf.put(uid, name.as_slice(), bytes) {
            Ok(())
        } else {
            Err(AllocError)
        }
    }

    /// A user's file, where it tells that. `None`: there is no such file.
    pub fn user_file(&self, uid: u32, name: &Label) -> Option<&[u8]>
        ensures { IfSome (users_files self.now) (λ files.
            option_map (λ bytes. bytes.now) result ≡ files uid (label_bytes name.now)) }
    {
        self.shelf.find(uid, name.as_slice())
    }

    /// Whether it tells what was asked of it.
    pub fn tells(&self) -> bool
        ensures scene { IsTrue result ↔ IsSome (scene_of self.now) }
        ensures stock { result ≡ (post_stock self.now).telling }
    {
        self.transcript.telling
    }

    /// The acts, where it tells them.
    pub fn acts(&self) -> &[Act]
        ensures { IfSome (scene_of self.now) (λ scene. result.now ≡ scene.acts) }
    {
        self.transcript.acts.as_slice()
    }

    /// What passed with the children that were given back, where it tells that.
    pub fn talks(&self) -> &[Talk]
        ensures { IfSome (scene_of self.now) (λ scene. result.now ≡ scene.talks) }
    {
        self.transcript.talks.as_slice()
    }
}
