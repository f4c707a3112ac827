ghost use Rattle.std.specs.Prelude.{◌≡◌, ◌+◌, ◌*◌, ◌++◌, ◌<◌, ◌≤◌, drop, length, take};
ghost use Rattle.std.specs.List.{between};
ghost use Rattle.std.specs.Int.{w16, w32, to_le_bytes};

use request_catalogue::Width;

/// The number of bytes of a header, in both widths.
pub const HEADER_LEN: usize = 16;

/// The bit of a wide header's second number that marks a descriptor. Those below it are the length.
const MARK: u32 = 0x8000_0000;

/// A frame's header: in narrow frames `struct imsg_hdr` of imsg_init(3), in wide ones this project's own.
#[derive(Clone, Copy, PartialEq, Eq)]
pub struct Header {
    /// What the frame is about, the manual's `type`.
    pub kind: u32,
    /// How many bytes the frame has, header and body together.
    pub len: u32,
    /// Bit 1 marks a descriptor that comes beside the frame. A wide frame has no other flag.
    pub flags: u16,
    /// A number that the sender chooses, as of whom the frame is about.
    pub peerid: u32,
    /// A number that the sender chooses, by custom the id of its process.
    pub pid: u32,
}

impl Header {
    ghost use Rattle.imsg_frame.specs.Message.{header_bytes, FitsFields};

    // The header that the bytes begin with.
    pub(crate) fn from_front(width: Width, bytes: &[u8]) -> Header
        requires { 16 ≤ length bytes.now }
        ensures bytes { header_bytes width result ≡ take 16 bytes.now }
        ensures fields { FitsFields width result }
    {
        let (len, flags) = len_and_flags(width, bytes);
        Header {
            kind: u32_at(bytes, 0),
            len,
            flags,
            peerid: u32_at(bytes, 8),
            pid: u32_at(bytes, 12),
        }
    }

    /// Writes the header to the front of `out`, which needs room for it. What stands after it stays as it
    /// was: with a body of `len` less 16 bytes there, `out` begins with the frame.
    pub fn write(self, width: Width, out: &mut [u8])
        requires fields { FitsFields width self }
        requires room { 16 ≤ length out.old }
        ensures { out.new ≡ header_bytes width self ++ drop 16 out.old }
    {
        out[..HEADER_LEN].copy_from_slice(&self.to_bytes(width));
    }

    fn to_bytes(self, width: Width) -> [u8; HEADER_LEN]
        requires { FitsFields width self }
        ensures { result ≡ header_bytes width self }
    {
        let mut bytes = [0; HEADER_LEN];
        bytes[0..4].copy_from_slice(&self.kind.to_le_bytes());
        bytes[8..12].copy_from_slice(&self.peerid.to_le_bytes());
        bytes[12..16].copy_from_slice(&self.pid.to_le_bytes());
        bytes[4..8].copy_from_slice(&len_to_bytes(width, self.len, self.flags));
        bytes
    }
}

ghost use Rattle.imsg_frame.specs.Fields.{len_limit, flags_limit, len_bytes};

// The length and the flags of a header, which stand in its bytes 4 to 8.
#[tactic(auto, unfolding(crate::specs::Fields::len_bytes))]
fn len_and_flags(width: Width, bytes: &[u8]) -> (u32, u16)
    requires { 8 ≤ length bytes.now }
    ensures bytes { len_bytes width result.0 result.1 ≡ between 4 8 bytes.now }
    ensures len { result.0 < len_limit width }
    ensures flags { result.1 < flags_limit width }
{
    match width {
        Width::Narrow => (u32::from(u16_at(bytes, 4)), u16_at(bytes, 6)),
        Width::Wide => {
            let number = u32_at(bytes, 4);
            if number < MARK {
                (number, 0)
            } else {
                (number - MARK, 1)
            }
        }
    }
}

#[tactic(auto, unfolding(crate::specs::Fields::len_bytes))]
fn len_to_bytes(width: Width, len: u32, flags: u16) -> [u8; 4]
    requires len { len < len_limit width }
    requires flags { flags < flags_limit width }
    ensures bytes { result ≡ len_bytes width len flags }
    ensures four { length result ≡ 4 }
{
    match width {
        Width::Narrow => {
            let len = (len as u16).to_le_bytes();
            let flags = flags.to_le_bytes();
            [len[0], len[1], flags[0], flags[1]]
        }
        Width::Wide => (len + MARK * u32::from(flags)).to_le_bytes(),
    }
}

fn u16_at(bytes: &[u8], at: usize) -> u16
    requires { at + 2 ≤ length bytes.now }
    ensures { to_le_bytes w16 result ≡ between at (at + 2) bytes.now }
{
    u16::from_le_bytes([bytes[at], bytes[at + 1]])
}

fn u32_at(bytes: &[u8], at: usize) -> u32
    requires { at + 4 ≤ length bytes.now }
    ensures { to_le_bytes w32 result ≡ between at (at + 4) bytes.now }
{
    u32::from_le_bytes([bytes[at], bytes[at + 1], bytes[at + 2], bytes[at + 3]])
}
