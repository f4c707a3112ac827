ghost use Rattle.std.specs.Prelude.{◌≡◌, ◌↔◌, ◌≤◌, [], ◌∷◌, ◌++◌, All, IfOk, IfSome, IsOk, IsSome, IsTrue, length};
ghost use Rattle.std.specs.Prelude.{OnErr, OnOk, Some, vec_len};
ghost use Rattle.outside.specs.Faults.{count_after};
ghost use Rattle.outside.specs.Places.{places_listened};
ghost use Rattle.outside.specs.Scene.{IsFresh};
ghost use Rattle.outside.specs.Told.{Gains};
ghost use Rattle.std.proofs.Props.{props};

use outside::{Failed, Place, Post, Site};
use std::alloc::{AllocError, Global};

/// A site in memory, which gives the posts that it holds. It tells where it listened as long as
/// memory is found for it.
#[derive(Drop)]
pub struct MemSite<P: Post> {
    alloc: Global,
    posts: Option<Vec<P>>,
    places: Vec<Place>,
    telling: bool,
    listen_faults: u64,
    ghost fresh: { IfSome posts (λ v. All (IsFresh P.scene P.faults) v.items) } by { Prim.hlevel props },
}

impl<P: Post> MemSite<P> {
    ghost use Rattle.outside_memory.specs.MemSite.{listen_faults_of, listens_of, posts_of};

    /// A site that gives these posts. It takes no memory.
    pub fn new(alloc: Global, posts: Vec<P>) -> Result<MemSite<P>, AllocError>
        requires { All (IsFresh P.scene P.faults) posts.items }
        ensures ok { IsOk result }
        ensures posts { IfOk result (λ site. posts_of site ≡ posts.items) }
        ensures listens { IfOk result (λ site. listens_of site ≡ Some []) }
        ensures listen_faults { IfOk result (λ site. listen_faults_of site ≡ 0) }
    {
        Ok(MemSite {
            alloc,
            posts: Some(posts),
            places: Vec::new(alloc),
            telling: true,
            listen_faults: 0,
        })
    }

    /// Whether it tells where it listened.
    pub fn tells(&self) -> bool
        ensures { IsTrue result ↔ IsSome (listens_of self.now) }
    {
        self.telling
    }

    /// Where it listened, where it tells that.
    pub fn listens(&self) -> &[Place]
        ensures { IfSome (listens_of self.now) (λ places. result.now ≡ places) }
    {
        self.places.as_slice()
    }
}

/// Adds a copy of the place.
fn push_copy(alloc: Global, places: &mut Vec<Place>, place: &Place) -> Result<(), AllocError>
    ensures { OnOk result (places.new.items ≡ places.old.items ++ place.now ∷ []) }
{
    places.push(place.copy(alloc)?)?;
    Ok(())
}

impl<P: Post> Site for MemSite<P> {
    ghost use Rattle.outside_memory.specs.MemSite.{listen_faults_of, listens_of, posts_of};

    type Post = P;

    ghost listens = { listens_of };

    ghost listen_faults = { listen_faults_of };

    /// Gives all posts that it holds. It fails exactly where these aren't as many as the workers.
    fn listen(&mut self, place: &Place) -> Result<Vec<P>, Failed>
        requires { 1 ≤ place.now.workers }

        ensures workers { IfOk result (λ posts. vec_len posts ≡ place.now.workers) }
        ensures fresh { IfOk result (λ posts. All (IsFresh P.scene P.faults) posts.items) }
        ensures listens { Gains (listens_of self.old) (places_listened result place.now)
            (listens_of self.new) }
        ensures counts { listen_faults_of self.new
            ≡ count_after result (listen_faults_of self.old) }

        ensures as_many { IsOk result ↔ (length (posts_of self.old) ≡ place.now.workers) }
        ensures given { IfOk result (λ posts. posts.items ≡ posts_of self.old) }
        ensures none_held { OnOk result (posts_of self.new ≡ []) }
        ensures held { OnErr result (posts_of self.new ≡ posts_of self.old) }
    {
        match self.posts.take() {
            Some(posts) if posts.len() == place.workers as usize => {
                if push_copy(self.alloc, &mut self.places, place).is_err() {
                    self.telling = false;
                }
                Ok(posts)
            }
            others => {
                self.posts = others;
                self.listen_faults = self.listen_faults.saturating_add(1);
                Err(Failed)
            }
        }
    }
}
