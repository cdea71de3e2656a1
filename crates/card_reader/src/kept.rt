// A list that keeps its first items, as many as it has places.
ghost use Rattle.std.specs.Prelude.{◌≡◌, ◌+◌, ◌≤◌, ⊤, ltb, set, take, replicate};
ghost use Rattle.basics.specs.Logic.{when◌then◌else◌};

use std::alloc::AllocError;

// Items in the first places of an array.
pub struct Kept<T, const N: usize> {
    pub items: [T; N],
    pub count: usize,
    ghost fits: { count ≤ N },
}

// Written out, since a struct with a type parameter and a ghost field has no derive.
impl<T: Copy, const N: usize> Clone for Kept<T, N> {
    ghost is_clone = { λ kept copy. copy ≡ kept };

    ghost is_infallible = { λ _. ⊤ };

    fn clone(&self) -> Result<Self, AllocError> {
        Ok(*self)
    }
}

impl<T: Copy, const N: usize> Copy for Kept<T, N> {}

impl<T: Copy, const N: usize> Kept<T, N> {
    // No items, where unused places have a value.
    pub(crate) fn empty(unused: T) -> Self
        ensures { (result.items ≡ replicate N unused) × (result.count ≡ 0) }
    {
        Kept {
            items: [unused; N],
            count: 0,
        }
    }

    // Keeps an item in the next place, if there is one.
    pub(crate) fn keep(&mut self, item: T)
        ensures { (self.new.count ≡ (when ltb self.old.count N then self.old.count + 1 else self.old.count)) ×
            (self.new.items ≡ (when ltb self.old.count N then set self.old.items self.old.count item else self.old.items)) }
    {
        if self.count < N {
            self.items[self.count] = item;
            self.count += 1;
        }
    }

    // The items that are kept.
    pub fn as_slice(&self) -> &[T]
        ensures { result.now ≡ take self.now.count self.now.items }
    {
        &self.items[..self.count]
    }
}
