//! The two widths of frames.

ghost use Rattle.std.specs.Prelude.{◌≡◌};

/// How long the frames between the monitor and its children may be.
#[derive(Clone, Copy, PartialEq, Eq)]
pub enum Width {
    /// OpenBSD's frames: a length of 16 bits, at most 16,384 bytes a frame.
    Narrow,
    /// A length of 31 bits beside a bit for a descriptor, at most 65,536 bytes a frame.
    Wide,
}

impl Width {
    ghost use Rattle.request_catalogue.specs.Widths.{frame_max, body_max, transfer_max};

    /// The most bytes of a frame, header and body together: 16,384 or 65,536.
    pub const fn frame_max(self) -> usize
        ensures { result ≡ frame_max self }
    {
        match self {
            Width::Narrow => 16_384,
            Width::Wide => 65_536,
        }
    }

    /// The most bytes of a frame's body, and what a buffer for one has: 16,368 or 65,520.
    pub const fn body_max(self) -> usize
        ensures { result ≡ body_max self }
    {
        match self {
            Width::Narrow => 16_368,
            Width::Wide => 65_520,
        }
    }

    /// The most bytes that one request reads or writes: 16,000 or 60,000.
    pub const fn transfer_max(self) -> usize
        ensures { result ≡ transfer_max self }
    {
        match self {
            Width::Narrow => 16_000,
            Width::Wide => 60_000,
        }
    }
}
