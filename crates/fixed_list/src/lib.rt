//! A short list of bytes that is copied as a number is. Believe `specs/FixedList.antt`; names, labels,
//! notes and seeds stand above.
#![tactic(auto)]

ghost use Rattle.std.specs.Prelude.{◌≡◌, ℕ, ◌-◌, ◌^◌, ◌<◌, ◌≤◌, ◌==◌, length, drop, replicate, slice_index};

/// At most `N` bytes in a place of fixed size. The bytes after the list are zero, so that equal
/// lists are equal values.
#[derive(Clone, Copy)]
pub struct FixedList<const N: usize> {
    bytes: [u8; N],
    len: u16,
    ghost whole: { length bytes ≡ N },
    ghost small: { (k : ℕ) → slice_index bytes k < 256 },
    ghost within: { len ≤ N },
    ghost padded: { drop len bytes ≡ replicate (N - len) 0 },
}

impl<const N: usize> FixedList<N> {
    ghost use Rattle.fixed_list.specs.FixedList.{list_of};

    /// The list of these bytes.
    #[tactic(auto, unfolding(crate::specs::FixedList::list_of))]
    pub fn of(bytes: &[u8]) -> Self
        requires room { length bytes.now ≤ N }
        requires narrow { N < 2 ^ 16 }
        ensures { list_of result ≡ bytes.now }
    {
        let mut padded = [0; N];
        padded[..bytes.len()].copy_from_slice(bytes);
        FixedList {
            bytes: padded,
            len: bytes.len() as u16,
        }
    }

    /// The bytes of the list.
    #[tactic(auto, unfolding(crate::specs::FixedList::list_of))]
    pub fn as_slice(&self) -> &[u8]
        ensures bytes { result.now ≡ list_of self.now }
        ensures within { length result.now ≤ N }
    {
        &self.bytes[..self.len as usize]
    }

    /// How many bytes the list has, at most `N`.
    #[tactic(auto, unfolding(crate::specs::FixedList::list_of))]
    pub fn len(&self) -> usize
        ensures length { result ≡ length (list_of self.now) }
        ensures within { result ≤ N }
    {
        self.len as usize
    }

    /// Whether the list has no bytes.
    #[tactic(auto, unfolding(crate::specs::FixedList::list_of))]
    pub fn is_empty(&self) -> bool
        ensures { result ≡ (length (list_of self.now) == 0) }
    {
        self.len == 0
    }
}

/// Two lists are equal where their bytes are.
impl<const N: usize> PartialEq for FixedList<N> {
    ghost use Rattle.std.specs.Str.{bytes_eq};
    ghost use Rattle.std.specs.Cmp.{on_per, partial_equiv_from_equiv};
    ghost use Rattle.std.specs.Cmp.Lexicographic.{nat_list_eq_equiv};
    ghost use Rattle.fixed_list.specs.FixedList.{list_of};

    ghost eq = { λ a b. bytes_eq (list_of a) (list_of b) };

    ghost laws = { on_per list_of (partial_equiv_from_equiv nat_list_eq_equiv) };

    fn eq(&self, other: &Self) -> bool {
        self.as_slice() == other.as_slice()
    }
}

impl<const N: usize> Eq for FixedList<N> {
    ghost use Rattle.std.specs.Cmp.{on_equiv};
    ghost use Rattle.std.specs.Cmp.Lexicographic.{nat_list_eq_equiv};
    ghost use Rattle.fixed_list.specs.FixedList.{list_of};

    ghost laws = { on_equiv list_of nat_list_eq_equiv };
}
