//! What a cell may hold.
ghost use Rattle.std.specs.Prelude.{◌≡◌, ℕ, ◌<◌, List, [], ◌∷◌, ◌++◌, length};
ghost use Rattle.turn_cell.specs.Facts.{replies_of};

/// An object of one's own, whose replies make its history.
pub trait Object: Send + Drop {
    type Call;

    type Reply: Copy + Send;

    /// What is fixed of an object, for the contracts alone: no value of it is made.
    type Terms;

    ghost terms: { Self → Self.Terms };
    // Every reply that was given, in order.
    ghost history: { Self → List Self.Reply };
    // How many callers there may be, and how many calls each may make.
    ghost passes: { Self → ℕ };

    ghost quota: { Self → ℕ };
    // Who made the call that a reply answers, and the call.
    ghost owner: { Self.Reply → ℕ };

    ghost call_of: { Self.Reply → Self.Call };
    // The calls that may be made, and the histories that may come about.
    ghost proper: { Self.Call → Type 0 };

    ghost legal: { Self.Terms → List Self.Reply → Type 0 };

    /// Makes the call of `who`.
    fn apply(&mut self, who: u32, call: Self::Call) -> Self::Reply
        requires proper { proper call }
        requires who { who < passes self.old }
        requires quota { length (replies_of owner who (history self.old)) < quota self.old }
        ensures history { history self.new ≡ history self.old ++ result ∷ [] }
        ensures reply { (owner result ≡ who) × (call_of result ≡ call) }
        ensures legal { legal (terms self.new) (history self.new) }
        ensures same { (terms self.new ≡ terms self.old)
            × (passes self.new ≡ passes self.old) × (quota self.new ≡ quota self.old) };

    /// How many callers there may be: their numbers are those below. An object's history is always legal, before the
    /// first call too.
    fn passes(&self) -> u32
        ensures count { result ≡ passes self.now }
        ensures legal { legal (terms self.now) (history self.now) };

    /// How many calls each caller may make.
    fn quota(&self) -> u64
        ensures { result ≡ quota self.now };
}
