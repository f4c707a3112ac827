//! What follows of the definitions: functions that do nothing, whose contracts are the laws.

ghost use Rattle.std.specs.Prelude.{◌≡◌, ◌<◌, ◌≤◌, [], ◌∷◌, All, List, ℕ, length};
ghost use Rattle.durable_log.specs.Disk.{IsCall, MayLeave, Story};
ghost use Rattle.durable_log.specs.Journal.{image_of, pieces_of, records_of};
ghost use Rattle.durable_log.specs.Records.{HasRecords};

/// What a disk reads as is one of the images that a crash may leave: each call keeps it so.
pub fn what_is_read_may_be_left()
    ensures { (at : ℕ) (bytes : List ℕ) (before after : Story) → IsCall at bytes before after
        → at ≤ length before.now.reads → MayLeave before.now before.now.reads → MayLeave after.now after.now.reads }
{}

/// An image has one list of records, which is read from it.
pub fn records_are_read()
    ensures { (image : List ℕ) (records : List (List ℕ)) → HasRecords image records → records_of image ≡ records }
{}

/// An append of at most 256 bytes is one record, and one of no bytes is none.
pub fn a_short_append_is_one_record()
    ensures none { pieces_of [] ≡ [] }
    ensures one { (bytes : List ℕ) → 0 < length bytes → length bytes ≤ 256 → pieces_of bytes ≡ bytes ∷ [] }
{}

/// The records of a whole run fit the image: 1,048,576 of them, each of at most 256 bytes.
pub fn records_of_a_run_fit()
    ensures { (given : List (List ℕ)) → All (λ bytes. length bytes ≤ 256) given → length given ≤ 1048576
        → length (image_of given) ≤ 271581189 }
{}
