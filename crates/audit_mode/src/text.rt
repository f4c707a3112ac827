//! The text that the file of a log has.

ghost use Rattle.std.specs.Prelude.{◌≡◌, ◌<◌, ◌^◌, ◌++◌, IfOk, MatchOption, length};
ghost use Rattle.durable_log.specs.Records.{record_bytes};
ghost use Rattle.audit_mode.specs.Texts.{IsAuditedText, IsRecordless, IsTextOfRecords};

use std::alloc::{AllocError, Global};

/// The text that is audited of a file: of a durable log the lines of its records, and of another file
/// its bytes.
pub(crate) fn audited_text(alloc: Global, bytes: Vec<u8>) -> Result<Vec<u8>, AllocError>
    ensures { IfOk result (λ text. IsAuditedText bytes.items text.items) }
{
    let Some(records) = bytes.as_slice().strip_prefix(b"OTJ1") else {
        return Ok(bytes);
    };
    text_of_records(alloc, records)
}

/// The lines of the whole records from the first byte on, joined.
fn text_of_records(alloc: Global, records: &[u8]) -> Result<Vec<u8>, AllocError>
    ensures { IfOk result (λ text. IsTextOfRecords records.now text.items) }
{
    let mut text = Vec::with_capacity(alloc, records.len())?;
    let mut rest = records;
    while let Some((line, behind)) = first_record(rest) {
        text.extend_from_slice(line)?;
        rest = behind;
    }
    Ok(text)
}

/// The line of the whole record in front, and what stands after it.
fn first_record(bytes: &[u8]) -> Option<(&[u8], &[u8])>
    ensures { MatchOption result (IsRecordless bytes.now) (λ parts. (length parts.0.now < 2 ^ 16)
        × (bytes.now ≡ record_bytes parts.0.now ++ parts.1.now)) }
{
    match bytes {
        [1, low, high, behind @ ..] => {
            behind.split_at_checked(usize::from(u16::from_le_bytes([*low, *high])))
        }
        _ => None,
    }
}
