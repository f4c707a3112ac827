//! The records of an image, one after the other.

ghost use Rattle.ledger_journal.specs.Images.{IsCutOff, IsNextOf};

/// What stands next in an image.
pub(crate) enum Next<'a> {
    /// An opened record, and after it at least the next gate.
    Opened { bytes: &'a [u8], rest: &'a [u8] },
    /// A closed gate.
    Closed,
    /// No gate, or an opened record with fewer bytes than its length and the next gate.
    Cut,
}

/// What stands next.
pub(crate) fn next_record(image: &[u8]) -> Next<'_>
    ensures { IsNextOf image.now result }
{
    match image {
        [] => Next::Cut,
        [1, low, high, behind @ ..] => cut_off(u16::from_le_bytes([*low, *high]), behind),
        [1, ..] => Next::Cut,
        _ => Next::Closed,
    }
}

/// An opened record of this length, of what stands after the length.
fn cut_off(len: u16, behind: &[u8]) -> Next<'_>
    ensures { IsCutOff len behind.now result }
{
    let len = usize::from(len);
    if len < behind.len() {
        let (bytes, rest) = behind.split_at(len);
        Next::Opened { bytes, rest }
    } else {
        Next::Cut
    }
}
