ghost use Rattle.std.specs.Prelude.{◌≡◌, ℕ, ◌+◌, ◌<◌, ◌≤◌, List, [], ◌∷◌, ◌++◌, length, is_ok, if◌then◌else◌, nat_le, nat_lt};
ghost use Rattle.std.specs.List.{slice_get};
ghost use Rattle.bounded.specs.Listed.{listed, latest, revised};

use super::{Bounded, Full};
use std::alloc::AllocError;

impl<T: Copy, const N: usize> Bounded<T, N> {
    // The empty list; `blank` fills the places that are not in use.
    pub fn new(blank: T) -> Self
        ensures { listed result ≡ [] }
    {
        Bounded {
            items: [blank; N],
            len: 0,
        }
    }

    pub fn len(&self) -> usize
        ensures is { result ≡ length (listed self.now) }
        ensures within { result ≤ N }
    {
        self.as_slice().len()
    }

    pub fn as_slice(&self) -> &[T]
        ensures is { result.now ≡ listed self.now }
        ensures within { length result.now ≤ N }
    {
        let all = &self.items[..];
        &all[..self.len]
    }

    // The item at a place, which counts from 0; None past the last.
    pub fn get(&self, at: usize) -> Option<T>
        ensures { result ≡ slice_get (listed self.now) at }
    {
        self.as_slice().get(at).copied()
    }

    pub fn last(&self) -> Option<T>
        ensures { result ≡ latest (listed self.now) }
    {
        self.as_slice().last().copied()
    }

    // Puts `item` in the place of the last item; an empty list stays empty.
    pub fn set_last(&mut self, item: T)
        ensures { listed self.new ≡ revised (λ _. item) (listed self.old) }
    {
        if let Some(at) = self.len.checked_sub(1) {
            self.items[at] = item;
        }
    }

    // Adds an item at the end; a full list is left as it was.
    pub fn push(&mut self, item: T) -> Result<(), Full>
        ensures room { is_ok result ≡ nat_lt (length (listed self.old)) N }
        ensures items { listed self.new ≡ (if is_ok result then listed self.old ++ item ∷ [] else listed self.old) }
    {
        let at = self.len;
        if at >= N {
            return Err(Full);
        }
        self.items[at] = item;
        self.len = at + 1;
        Ok(())
    }

    // Adds all of `more` at the end, in order; where not all of them fit, the list is left as it was.
    pub fn extend(&mut self, more: &[T]) -> Result<(), Full>
        ensures room { is_ok result ≡ nat_le (length (listed self.old) + length more.now) N }
        ensures items { listed self.new ≡ (if is_ok result then listed self.old ++ more.now else listed self.old) }
    {
        let len = self.len;
        if more.len() > N - len {
            return Err(Full);
        }
        let end = len + more.len();
        let all = &mut self.items[..];
        all[len..end].copy_from_slice(more);
        self.len = end;
        Ok(())
    }
}

// By hand: no derive makes a `Clone` of a generic struct with a ghost field.
impl<T: Copy, const N: usize> Clone for Bounded<T, N> {
    ghost is_clone = { λ x y. y ≡ x };

    fn clone(&self) -> Result<Self, AllocError> {
        Ok(*self)
    }
}
