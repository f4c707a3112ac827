ghost use Rattle.std.specs.Prelude.{◌≡◌, [], IfOk};
ghost use Rattle.outside_memory.specs.Repeating.{first_item, items_after};

use std::alloc::{AllocError, Global};
use std::marker::Model;

/// A list that is used up item by item, but for the last one, which repeats.
#[derive(Drop)]
pub struct Repeating<T> {
    items: Vec<T>,
    next: usize,
}

impl<T> Model for Repeating<T> {
    ghost use Rattle.std.specs.Prelude.{◌≤◌, List, drop, vec_len};

    ghost Value = { List T };

    ghost view = { λ r. drop r.next r.items.items };

    ghost invariant = { λ r. r.next ≤ vec_len r.items };
}

impl<T: Copy> Repeating<T> {
    /// A copy of these items.
    pub fn of(alloc: Global, items: &[T]) -> Result<Repeating<T>, AllocError>
        ensures { IfOk result (λ r. r ≡ items.now) }
    {
        Ok(Repeating {
            items: Vec::from_slice(alloc, items)?,
            next: 0,
        })
    }

    /// No items.
    pub fn none(alloc: Global) -> Repeating<T>
        ensures { result ≡ [] }
    {
        Repeating {
            items: Vec::new(alloc),
            next: 0,
        }
    }

    /// The next item, which is used up. `None`: there are no items.
    pub fn take(&mut self) -> Option<T>
        ensures item { result ≡ first_item self.old }
        ensures after { self.new ≡ items_after self.old }
    {
        let item = *self.items.get(self.next)?;
        if self.next + 1 < self.items.len() {
            self.next += 1;
        }
        Some(item)
    }
}
