//! Which kinds of requests a session was permitted.

ghost use Rattle.std.specs.Prelude.{◌≡◌, ◌<◌};
ghost use Rattle.request_catalogue.specs.Kinds.{kind_number};
ghost use Rattle.session_table.specs.Marks.{IsMarked, has_mark, marks_after, no_marks, with_mark};

use policy_model::Event;
use request_catalogue::Kind;
use std::marker::Model;

/// Which kinds of requests a session was permitted.
#[derive(Drop)]
pub struct Bits {
    /// By the kind's number of 1 to 13; the place 0 is of no kind.
    marks: [bool; 14],
}

impl Model for Bits {
    ghost use Rattle.std.specs.Prelude.{◌≡◌, Bool, List, length};

    ghost Value = { List Bool };

    ghost view = { λ b. b.marks };

    ghost invariant = { λ b. length b.marks ≡ 14 };
}

/// The place of a kind.
fn place_of(kind: Kind) -> usize
    ensures value { result ≡ kind_number kind }
    ensures bound { result < 14 }
{
    kind.number() as usize
}

impl Bits {
    /// Nothing was permitted.
    pub fn new() -> Bits
        ensures { result ≡ no_marks }
    {
        Bits { marks: [false; 14] }
    }

    /// Whether a request of the kind was permitted.
    pub fn had(&self, kind: Kind) -> bool
        ensures { result ≡ has_mark kind self.now }
    {
        self.marks[place_of(kind)]
    }

    /// A request of the kind was permitted.
    pub fn mark(&mut self, kind: Kind)
        ensures value { self.new ≡ with_mark kind self.old }
        ensures marked { IsMarked kind self.old self.new }
    {
        self.marks[place_of(kind)] = true;
    }

    /// What an event of the session makes of these.
    pub(crate) fn advance(&mut self, event: &Event)
        ensures { self.new ≡ marks_after self.old event.now }
    {
        if let Some(kind) = event.ask.kind() {
            if event.decision.is_permit() {
                self.mark(kind);
            }
        }
    }
}
