//! The image of no records, with which a durable log begins, and whether a file holds it. Believe
//! `specs/Fresh.antt`. The modes `serve` and `recover` stand above.
#![tactic(auto)]

ghost use Rattle.std.specs.Prelude.{◌≡◌, ◌↔◌, ◌∷◌, [], IfOk, IfSome, IsTrue, OnErr};
ghost use Rattle.durable_log.specs.Journal.{image_of};
ghost use Rattle.outside.specs.FilesNow.{OnlyReads, files_now};
ghost use Rattle.outside.specs.Told.{Rose};
ghost use Rattle.fresh_log.specs.Fresh.{IsFresh};

use outside::{Failed, Files, Word};

/// The image of no records: `OTJ1` and a closed gate.
const FRESH: [u8; 5] = *b"OTJ1\x00";

/// How many bytes of a file are read: one more than the image of no records has.
const FRONT: usize = 6;

/// The image of no records, with which a durable log begins.
pub fn fresh_image() -> &'static [u8; 5]
    ensures { result.now ≡ image_of [] }
{
    &FRESH
}

/// Whether the file of this name is there and holds just the image of no records, by one reading of
/// its first six bytes. `Failed`: the reading failed.
pub fn is_fresh<F: Files>(files: &mut F, name: &Word) -> Result<bool, Failed>
    ensures fresh { IfOk result (λ answer. IfSome (F.contents files.new) (λ there.
        IsTrue answer ↔ IsFresh (there name.now))) }
    ensures failed { OnErr result (Rose (F.read_faults files.old) (F.read_faults files.new)) }
    ensures files { let now = files_now F.contents F.read_faults F.replace_faults F.touched in
        OnlyReads (name.now ∷ []) (now files.old) (now files.new) }
{
    let mut front = [0; FRONT];
    let found = files.read(name, 0, &mut front)?;
    Ok(found.is_some_and(|n| &front[..n] == fresh_image().as_slice()))
}
