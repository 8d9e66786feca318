// Cells: what a row of a table is made of.
ghost use Rattle.std.specs.Prelude.{◌≡◌};
ghost use Rattle.terms.specs.Cells.{same};

// A table's cell: absent, which is SQL's NULL, or a whole number in the range that `in_range` of specs/Cells.antt states.
pub type Cell = Option<i32>;

// A cell of the memory that is lent for a run: absent, or a number of 64 bits, which holds a table's cell and an
// aggregate's answer alike. It is a type of its own and no alias, so that work memory is not taken for an answer.
#[derive(Clone, Copy, PartialEq, Eq, Debug)]
pub struct WorkCell {
    pub value: Option<i64>,
}

impl From<Cell> for WorkCell {
    ghost from_gives = { λ cell work. work.value ≡ cell };

    fn from(cell: Cell) -> WorkCell {
        WorkCell {
            value: cell.map(i64::from),
        }
    }
}

// Whether two cells are the same: both absent, or both one number. Unlike a comparison by =, it is true of two absent ones.
// It only gives `==` the name that the definition has.
pub fn same_cell(left: Option<i64>, right: Option<i64>) -> bool
    ensures { result ≡ same left right }
{
    left == right
}
