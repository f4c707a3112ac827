ghost use Rattle.std.specs.Prelude.{◌≡◌, ℕ, ◌≤◌, List, [], ◌∷◌, length, take, Option, OnErr, OnOk};
ghost use Rattle.outside.specs.Faults.{count_after};
ghost use Rattle.outside.specs.Told.{Gains, GainsPart};

use crate::act::Failed;

/// What bytes are appended to, as a log.
pub trait Sink: Drop + Send {
    // The bytes that it holds, where it tells them.
    ghost held: { Self → Option (List ℕ) };

    // The lengths of its appends, in order, where it tells them.
    ghost lengths: { Self → Option (List ℕ) };

    // How many faults it had.
    ghost faults: { Self → ℕ };

    /// Appends all bytes. `Failed`: a first part of them was appended, perhaps none.
    fn append(&mut self, bytes: &[u8]) -> Result<(), Failed>
        ensures ok { OnOk result (Gains (held self.old) bytes.now (held self.new)) }
        ensures part { OnErr result (GainsPart (held self.old) bytes.now (held self.new)) }
        ensures length_ok { OnOk result (Gains (lengths self.old) (length bytes.now ∷ []) (lengths self.new)) }
        ensures length_err { OnErr result ((n : ℕ) × Gains (lengths self.old) (n ∷ []) (lengths self.new)) }
        ensures counts { faults self.new ≡ count_after result (faults self.old) }
        ensures kept { faults self.old ≤ faults self.new };
}
