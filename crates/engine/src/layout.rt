// Where the temporaries of a plan lie in work memory.

// So many rows of so many cells, or room for them.
#[derive(Clone, Copy)]
pub struct Extent {
    pub rows: usize,
    pub width: usize,
}

// A part of work memory with room for so many rows, or tuples with their answers, of so many cells. Its shape is like that of
// other types by chance alone.
#[derive(Clone, Copy)]
pub struct Region {
    pub start: usize,
    pub room: usize,
    pub width: usize,
}

// The regions of the kept rows of each block, and those of each inner block's tuples, by the block's number. Two arrays and
// not one of pairs: each kind is laid out by itself, one region behind the other, and block 0 has no tuples.
#[derive(Clone, Copy)]
pub struct Layout {
    pub kept: [Region; 4],
    pub tuples: [Region; 4],
}

// How many rows and tuples the regions hold, and how many rows were written. Not beside each region: a plan's run leaves the
// regions as they are, so what a step changes is told by these numbers alone.
#[derive(Clone, Copy)]
pub struct Counts {
    pub kept: [usize; 4],
    pub tuples: [usize; 4],
    pub written: usize,
}
