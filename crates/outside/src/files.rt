ghost use Rattle.std.specs.Prelude.{◌≡◌, ℕ, ◌≤◌, length, Option, IfOk, IfSome, OnErr, OnOk};
ghost use Rattle.outside.specs.Files.{Contents, MayBeReplaced, Replaced, SameFiles, bytes_read, piece_of};
ghost use Rattle.outside.specs.Faults.{count_after};
ghost use Rattle.outside.specs.Told.{Goes};
ghost use Rattle.outside.specs.Touched.{HasRead, HasReplaced, MayHaveRead, MayHaveReplaced, Touched};

use crate::act::Failed;
use crate::bytes::Word;

/// Files, each with a name.
pub trait Files: Drop {
    // What stands in the files, where they tell it.
    ghost contents: { Self → Option Contents };

    // How many readings failed.
    ghost read_faults: { Self → ℕ };

    // How many replacings failed.
    ghost replace_faults: { Self → ℕ };

    // Which files were read and which replaced, where they tell it.
    ghost touched: { Self → Option Touched };

    /// Reads a file from the byte at `offset` on into the front of `buf`, and answers how many
    /// bytes: as many as `buf` has room for, or as many as there are. `None`: there is no such
    /// file.
    fn read(&mut self, name: &Word, offset: u64, buf: &mut [u8]) -> Result<Option<usize>, Failed>
        ensures bound { IfOk result (λ found. IfSome found (λ n. n ≤ length buf.old)) }
        ensures found { IfOk result (λ found. IfSome (contents self.new) (λ files.
            bytes_read found buf.new ≡ piece_of (files name.now) offset (length buf.old))) }
        ensures same { Goes SameFiles (contents self.old) (contents self.new) }
        ensures counts { read_faults self.new ≡ count_after result (read_faults self.old) }
        ensures kept { read_faults self.old ≤ read_faults self.new }
        ensures others { replace_faults self.new ≡ replace_faults self.old }
        ensures touched_ok { OnOk result (Goes (HasRead name.now) (touched self.old) (touched self.new)) }
        ensures touched_err { OnErr result (Goes (MayHaveRead name.now) (touched self.old)
            (touched self.new)) };

    /// Replaces what a file holds, or makes the file. `Failed`: it is as it was, or has been
    /// replaced.
    fn replace(&mut self, name: &Word, bytes: &[u8]) -> Result<(), Failed>
        ensures ok { OnOk result (Goes (Replaced name.now bytes.now) (contents self.old)
            (contents self.new)) }
        ensures err { OnErr result (Goes (MayBeReplaced name.now bytes.now) (contents self.old)
            (contents self.new)) }
        ensures counts { replace_faults self.new ≡ count_after result (replace_faults self.old) }
        ensures kept { replace_faults self.old ≤ replace_faults self.new }
        ensures others { read_faults self.new ≡ read_faults self.old }
        ensures touched_ok { OnOk result (Goes (HasReplaced name.now) (touched self.old)
            (touched self.new)) }
        ensures touched_err { OnErr result (Goes (MayHaveReplaced name.now) (touched self.old)
            (touched self.new)) };
}
