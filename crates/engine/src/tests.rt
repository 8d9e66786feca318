// One nest, step by step, over rows that stand in memory already.
ghost use Rattle.std.specs.Prelude.{◌≡◌};

use crate::filter::filter;
use crate::group::group_by;
use crate::groups::Groups;
use crate::layout::Extent;
use crate::output::output;
use crate::project::project;
use crate::rows::{Rows, TableRows};
use aggregates::Last;
use queries::{Aggregate, Function, Link, Operand};
use terms::{Comparison, WorkCell};

const EMPTY: WorkCell = WorkCell { value: None };

const FOUR: WorkCell = WorkCell { value: Some(4) };

const SEVEN: WorkCell = WorkCell { value: Some(7) };

const NINE: WorkCell = WorkCell { value: Some(9) };

const JOINS: [Link; 1] = [Link {
    column: 1,
    comparison: Comparison::Equal,
    parent: 1,
}];

const LAST_OF_TWO: Aggregate = Aggregate::Of {
    function: Function::House,
    column: 2,
};

fn three_pairs(cells: &[WorkCell; 6]) -> Rows<'_>
    ensures cells { result.cells.now ≡ cells.now }
    ensures count { result.count ≡ 3 }
    ensures width { result.width ≡ 2 }
{
    Rows {
        cells,
        count: 3,
        width: 2,
    }
}

#[test]
fn tuples_answers_and_the_rows_that_match(rt: HostRuntime) {
    let inner = [FOUR, NINE, FOUR, EMPTY, SEVEN, NINE];
    let mut parents = [FOUR, NINE, EMPTY, SEVEN, FOUR, FOUR];
    let mut keys = [EMPTY; 6];
    let tuples = project(&JOINS, three_pairs(&parents), &mut keys);
    assert_eq!(rt; tuples, 2);
    let rows = TableRows {
        rows: three_pairs(&inner),
    };
    group_by::<Last>(&JOINS, LAST_OF_TWO, rows, &mut keys, tuples);
    assert_eq!(rt; keys, [FOUR, NINE, EMPTY, EMPTY, EMPTY, EMPTY]);
    let groups = Groups {
        keys: &keys,
        count: tuples,
        tuple_len: 1,
    };
    let operand = Operand::Column { column: 2 };
    let extent = Extent { rows: 3, width: 2 };
    let comparison = Comparison::Equal;
    let left = filter(&JOINS, operand, comparison, groups, &mut parents, extent);
    assert_eq!(rt; left, 1);
    assert_eq!(rt; parents, [FOUR, NINE, EMPTY, SEVEN, FOUR, FOUR]);
    let mut res = [None; 3];
    output(&[2], rows, &mut res);
    assert_eq!(rt; res, [Some(9), None, Some(9)]);
}
