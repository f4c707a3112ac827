//! What each session of a drill does.

ghost use Rattle.std.specs.Prelude.{◌≡◌, ◌<◌, ◌≤◌};

/// What a session of a drill does.
#[derive(Clone, Copy, PartialEq, Eq)]
pub enum Class {
    /// It logs in by the next password, and its user's child uses a file.
    LogsIn,
    /// It replies with the password that was accepted last.
    Repeats,
    /// It exports a state before it has logged in.
    Exports,
    /// It gives its user up, challenges for nobody, and breaks off within a header.
    BreaksOff,
}

impl Class {
    ghost use Rattle.drill_plan.specs.Classes.{class_of};

    /// The class of a worker's session in the drill of `n`, 1 to 64. There are four workers, from 0, and
    /// fewer than 4,096 sessions of each, from 0.
    pub fn of(n: u32, worker: u32, session: u32) -> Class
        requires number { n ≤ 64 }
        requires workers { worker < 4 }
        requires sessions { session < 4096 }
        ensures { result ≡ class_of n worker session }
    {
        match (n + worker + session) % 4 {
            0 => Class::LogsIn,
            1 => Class::Repeats,
            2 => Class::Exports,
            _ => Class::BreaksOff,
        }
    }
}
