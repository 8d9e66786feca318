// A query after translation, in lists that the limits of a sheet bound.
use bounded::Bounded;
use queries::{Link, Step, Test};

// A block with its join conditions, which are its links and at most one more, and the number of its parent.
#[derive(Clone, Copy)]
pub struct TranslatedBlock {
    pub table: u8,
    pub tests: Bounded<Test, 6>,
    pub joins: Bounded<Link, 4>,
    pub parent: u8,
}

// Block 0 and the inner blocks from its child inward, the steps in their order, and the output columns of block 0.
#[derive(Clone, Copy)]
pub struct TranslatedQuery {
    pub blocks: Bounded<TranslatedBlock, 4>,
    pub steps: Bounded<Step, 14>,
    pub outputs: Bounded<u8, 6>,
}
