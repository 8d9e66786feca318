// The conditions of a block on its rows. A test and a link are two types, and no generic one, so that what a column is
// compared with has a name of its own in each: a constant, or a column of another block.
use terms::Comparison;

// A test: a column of the block against a constant.
#[derive(Clone, Copy, PartialEq, Eq, Debug)]
pub struct Test {
    pub column: u8,
    pub comparison: Comparison,
    pub constant: i32,
}

// A link, which correlates two blocks: a column of the block against a column of its parent. A plan joins by the same.
#[derive(Clone, Copy, PartialEq, Eq, Debug)]
pub struct Link {
    pub column: u8,
    pub comparison: Comparison,
    pub parent: u8,
}

// What fills the places of a list that are not in use. It is no `Default`, for no test and no link is meant where none is
// said; a const can't be one for both.
impl Test {
    pub const BLANK: Test = Test {
        column: 0,
        comparison: Comparison::Equal,
        constant: 0,
    };
}

impl Link {
    pub const BLANK: Link = Link {
        column: 0,
        comparison: Comparison::Equal,
        parent: 0,
    };
}
