ghost use Rattle.std.specs.Prelude.{◌≡◌, ◌<◌, ◌≤◌};
ghost use Rattle.outside.specs.Told.{next_count};

/// How many faults of each kind a post counted. A count stands still at 2^64 - 1.
#[derive(Clone, Copy, PartialEq, Eq)]
pub struct Faults {
    /// Accepts that failed.
    pub accept: u64,
    /// Starts of a child that failed.
    pub keeper: u64,
    /// Children that were given back after a fault of their link.
    pub link: u64,
    /// Calls on a client's connection that failed.
    pub conn: u64,
    /// Calls on the users' files that failed.
    pub vault: u64,
}

impl Faults {
    ghost use Rattle.outside.specs.Faults.{AreCounts};

    /// No fault.
    pub fn none() -> Faults
        ensures { AreCounts 0 0 0 0 0 result }
    {
        Faults {
            accept: 0,
            keeper: 0,
            link: 0,
            conn: 0,
            vault: 0,
        }
    }
}

/// The count of the links' faults after a child with so many was given back: one more where it had any.
pub fn link_count(count: u64, child_faults: u64) -> u64
    ensures counted { 0 < child_faults → result ≡ next_count count }
    ensures uncounted { child_faults ≡ 0 → result ≡ count }
    ensures least { count ≤ result }
    ensures most { result ≤ next_count count }
{
    if child_faults > 0 {
        count.saturating_add(1)
    } else {
        count
    }
}
