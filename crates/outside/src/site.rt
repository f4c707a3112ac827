ghost use Rattle.std.specs.Prelude.{◌≡◌, ℕ, ◌≤◌, List, [], ◌∷◌, ◌++◌, All, Option, IfOk, vec_len};
ghost use Rattle.outside.specs.declared.place.Place.{Place};
ghost use Rattle.outside.specs.Faults.{count_after};
ghost use Rattle.outside.specs.Places.{places_listened};
ghost use Rattle.outside.specs.Scene.{IsFresh};
ghost use Rattle.outside.specs.Told.{Gains};

use crate::act::Failed;
use crate::place::Place;
use crate::post::Post;

/// Where the service listens.
pub trait Site: Drop {
    /// The outside of one worker.
    type Post: Post;

    // The places where it listened: those of its calls that answered `Ok`, in order.
    ghost listens: { Self → Option (List Place) };

    // How many of its calls failed.
    ghost listen_faults: { Self → ℕ };

    /// Listens at the place, and gives each worker its post.
    fn listen(&mut self, place: &Place) -> Result<Vec<Self::Post>, Failed>
        requires { 1 ≤ place.now.workers }
        ensures workers { IfOk result (λ posts. vec_len posts ≡ place.now.workers) }
        ensures fresh { IfOk result (λ posts.
            All (IsFresh Self.Post.scene Self.Post.faults) posts.items) }
        ensures listens { Gains (listens self.old) (places_listened result place.now)
            (listens self.new) }
        ensures counts { listen_faults self.new ≡ count_after result (listen_faults self.old) };
}
