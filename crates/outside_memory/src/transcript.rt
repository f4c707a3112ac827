ghost use Rattle.std.specs.Prelude.{◌≡◌, ◌+◌, ◌-◌, ◌&&◌, ◌≤◌, [], ◌∷◌, false, IfOk, IfSome, is_some, length, List};
ghost use Rattle.std.specs.Prelude.{nat_lt, None, Some, true, ℕ};
ghost use Rattle.outside.specs.declared.act.Act.{Act};
ghost use Rattle.outside.specs.Scene.{came_count, Did, Played};
ghost use Rattle.outside.specs.Told.{Goes};

use crate::closed::Closed;
use outside::{Act, Bytes, Role, Talk};
use std::alloc::{AllocError, Global};

/// What was asked of a post, told as long as it fits the room and memory is found for it.
#[derive(Drop)]
pub(crate) struct Transcript {
    pub(crate) acts: Vec<Act>,
    pub(crate) room: usize,
    pub(crate) acts_left: usize,
    pub(crate) talks: Vec<Talk>,
    pub(crate) unread: Vec<Bytes>,
    pub(crate) talks_left: usize,
    pub(crate) telling: bool,
    ghost within_room: { length acts.items + acts_left ≤ room },
}

impl Transcript {
    ghost use Rattle.outside_memory.specs.Transcript.{HasCome, HasTakenRoom, Spent, scene_with};

    /// Nothing was asked yet. Up to so many acts are told. Memory is taken as it is needed.
    pub(crate) fn new(alloc: Global, acts: usize) -> Transcript
        ensures told { (plan : List (List ℕ × List ℕ)) → scene_with result plan
            ≡ Some (record { acts = []; talks = []; unread = []; plan = plan }) }
        ensures came { HasCome result 0 }
        ensures room { result.room ≡ acts }
    {
        Transcript {
            acts: Vec::new(alloc),
            room: acts,
            acts_left: acts,
            talks: Vec::new(alloc),
            unread: Vec::new(alloc),
            talks_left: usize::MAX,
            telling: true,
        }
    }

    /// Nothing was asked yet. The room for so many acts and talks is taken here.
    pub(crate) fn with_room(
        alloc: Global,
        acts: usize,
        talks: usize,
    ) -> Result<Transcript, AllocError>
        ensures told { IfOk result (λ t. (plan : List (List ℕ × List ℕ)) → scene_with t plan
            ≡ Some (record { acts = []; talks = []; unread = []; plan = plan })) }
        ensures came { IfOk result (λ t. HasCome t 0) }
        ensures acts { IfOk result (λ t. t.acts_left ≡ acts) }
        ensures talks { IfOk result (λ t. t.talks_left ≡ talks) }
        ensures telling { IfOk result (λ t. t.telling ≡ true) }
        ensures taken { IfOk result HasTakenRoom }
    {
        Ok(Transcript {
            acts: Vec::with_capacity(alloc, acts)?,
            room: acts,
            acts_left: acts,
            talks: Vec::with_capacity(alloc, talks)?,
            unread: Vec::with_capacity(alloc, talks)?,
            talks_left: talks,
            telling: true,
        })
    }

    /// Adds an act.
    pub(crate) fn act(&mut self, act: Act)
        ensures did { (plan : List (List ℕ × List ℕ)) → Did act (scene_with self.old plan)
            (scene_with self.new plan) }
        ensures came { (n : ℕ) → HasCome self.old n → HasCome self.new (n + came_count (act ∷ [])) }
        ensures telling { HasTakenRoom self.old
            → self.new.telling ≡ (self.old.telling && nat_lt 0 self.old.acts_left) }
        ensures taken { HasTakenRoom self.old → HasTakenRoom self.new }
        ensures spent { Spent 1 0 self.old self.new }
    {
        if self.acts_left == 0 {
            self.telling = false;
            return;
        }
        self.acts_left -= 1;
        if self.acts.push(act).is_err() {
            self.telling = false;
        }
    }

    /// Adds an act, if memory is found for its bytes; else tells no more.
    pub(crate) fn act_if(&mut self, act: Option<Act>)
        ensures did { IfSome act (λ a. (plan : List (List ℕ × List ℕ)) →
            Did a (scene_with self.old plan) (scene_with self.new plan)) }
        ensures silent { act ≡ None → (plan : List (List ℕ × List ℕ)) → scene_with self.new plan ≡ None }
        ensures came { (n : ℕ) → HasCome self.old n
            → IfSome act (λ a. came_count (a ∷ []) ≡ 0) → HasCome self.new n }
        ensures telling { HasTakenRoom self.old → self.new.telling
            ≡ (self.old.telling && (is_some act && nat_lt 0 self.old.acts_left)) }
        ensures taken { HasTakenRoom self.old → HasTakenRoom self.new }
        ensures spent { Spent 1 0 self.old self.new }
    {
        match act {
            Some(act) => self.act(act),
            None => {
                self.acts_left = self.acts_left.saturating_sub(1);
                self.telling = false;
            }
        }
    }

    /// Adds the act by which a child is given back, and what the child told; where it told nothing,
    /// no more is told.
    pub(crate) fn finish(&mut self, role: Role, closed: Option<Closed>)
        ensures gains { IfSome closed (λ closed. (plan : List (List ℕ × List ℕ)) →
            Goes (Played (Act.Finish role ∷ []) (closed.talk ∷ []) (closed.unread ∷ []))
            (scene_with self.old plan) (scene_with self.new plan)) }
        ensures silent { closed ≡ None → self.new.telling ≡ false }
        ensures came { (n : ℕ) → HasCome self.old n → HasCome self.new n }
        ensures telling { HasTakenRoom self.old → self.new.telling
            ≡ (self.old.telling && (nat_lt 0 self.old.acts_left
            && (is_some closed && nat_lt 0 self.old.talks_left))) }
        ensures taken { HasTakenRoom self.old → HasTakenRoom self.new }
        ensures spent { Spent 1 1 self.old self.new }
    {
        self.act(Act::Finish { role });
        self.talk(closed);
    }

    /// Adds what a child that was given back told, if it told; else tells no more.
    fn talk(&mut self, closed: Option<Closed>)
        ensures gains { IfSome closed (λ closed. (plan : List (List ℕ × List ℕ)) →
            Goes (Played [] (closed.talk ∷ []) (closed.unread ∷ [])) (scene_with self.old plan)
            (scene_with self.new plan)) }
        ensures silent { closed ≡ None → self.new.telling ≡ false }
        ensures came { (n : ℕ) → HasCome self.old n → HasCome self.new n }
        ensures telling { HasTakenRoom self.old → self.new.telling
            ≡ (self.old.telling && (is_some closed && nat_lt 0 self.old.talks_left)) }
        ensures taken { HasTakenRoom self.old → HasTakenRoom self.new }
        ensures spent { Spent 0 1 self.old self.new }
    {
        let left = self.talks_left;
        self.talks_left = left.saturating_sub(1);
        let Some(Closed { talk, unread }) = closed else {
            self.telling = false;
            return;
        };
        if left == 0 {
            self.telling = false;
            return;
        }
        if self.talks.push(talk).is_err() || self.unread.push(unread).is_err() {
            self.telling = false;
        }
    }

    /// Tells no more.
    pub(crate) fn cease(&mut self)
        ensures silent { (plan : List (List ℕ × List ℕ)) → scene_with self.new plan ≡ None }
        ensures came { (n : ℕ) → HasCome self.new n }
        ensures telling { self.new.telling ≡ false }
        ensures taken { HasTakenRoom self.old → HasTakenRoom self.new }
        ensures spent { Spent 0 0 self.old self.new }
    {
        self.telling = false;
    }
}
