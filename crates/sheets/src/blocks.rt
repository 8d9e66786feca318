// A query as a sheet holds it, in lists that the limits bound.
use bounded::Bounded;
use queries::{Link, Nest, Test};

mod adding;

// An inner block, with the nested test of its parent's rows that it serves.
#[derive(Clone, Copy)]
pub struct InnerBlock {
    pub nest: Nest,
    pub table: u8,
    pub tests: Bounded<Test, 6>,
    pub links: Bounded<Link, 3>,
}

// Block 0, the inner blocks from its child inward, and the output columns of block 0. What it means is `query_of`, and no
// `Model`, because it is `Copy` and holds bounded lists.
#[derive(Clone, Copy)]
pub struct SheetQuery {
    pub table: u8,
    pub tests: Bounded<Test, 6>,
    pub inner: Bounded<InnerBlock, 3>,
    pub outputs: Bounded<u8, 6>,
}
