//! The kinds of requests.

ghost use Rattle.std.specs.Prelude.{◌≡◌, ◌≤◌, Some, IfSome};

/// The kind of a request, by its number in a message's header.
#[derive(Clone, Copy, PartialEq, Eq)]
pub enum Kind {
    Banner = 1,
    Challenge = 2,
    Reply = 3,
    Abandon = 4,
    Export = 5,
    Import = 6,
    ReadAt = 7,
    WriteAt = 8,
    OpenFile = 9,
    CloseFile = 10,
    Info = 11,
    Note = 12,
    Finish = 13,
}

impl Kind {
    ghost use Rattle.request_catalogue.specs.Kinds.{kind_number, kind_numbered};

    /// The kind of this number, where it is 1 to 13.
    #[tactic(auto, unfolding(crate::specs::Kinds::kind_numbered))]
    pub fn of(number: u32) -> Option<Kind>
        ensures found { IfSome result (λ k. kind_number k ≡ number) }
        ensures table { result ≡ kind_numbered number }
        ensures only { (k : Kind) → kind_number k ≡ number → result ≡ Some k }
    {
        match number {
            1 => Some(Kind::Banner),
            2 => Some(Kind::Challenge),
            3 => Some(Kind::Reply),
            4 => Some(Kind::Abandon),
            5 => Some(Kind::Export),
            6 => Some(Kind::Import),
            7 => Some(Kind::ReadAt),
            8 => Some(Kind::WriteAt),
            9 => Some(Kind::OpenFile),
            10 => Some(Kind::CloseFile),
            11 => Some(Kind::Info),
            12 => Some(Kind::Note),
            13 => Some(Kind::Finish),
            _ => None,
        }
    }

    /// The number of the kind, 1 to 13.
    pub fn number(self) -> u32
        ensures { result ≡ kind_number self }
    {
        self as u32
    }
}
