ghost use Rattle.std.specs.Prelude.{◌≡◌, ℕ, ◌≤◌, length};

pub(crate) mod methods;

// A list of at most N items that is held in place, so that it never asks for memory: the first `len` of `items` are
// in use. What the contracts say of it is `listed`, the items in use.
//
// It is a buffer with a length beside it because the engine has no heap. `listed` is no `Model`, because the type is `Copy`,
// and a list does not give back what lies in the places that are not in use.
#[derive(Copy)]
pub struct Bounded<T: Copy, const N: usize> {
    items: [T; N],
    len: usize,
    ghost full: { length items ≡ N },
    ghost fits: { len ≤ N },
}

// What a full list answers to one item more.
#[derive(Clone, Copy, PartialEq, Eq, Debug)]
pub struct Full;
