// FILTER: the parent's rows that compare true with the answer of their own tuple.
ghost use Rattle.std.specs.Prelude.{◌≡◌, ◌*◌, ◌≤◌, length, filter};
ghost use Rattle.sources.specs.Heads.{rows_in};
ghost use Rattle.meaning.specs.Running.{answer_for, operand_of, passes, tuple_of};
ghost use Rattle.engine.specs.Rows.{values};
ghost use Rattle.engine.specs.Iterators.{groups_left};

use crate::groups::Groups;
use crate::layout::Extent;
use crate::project::same_tuple;
use crate::rows::{cell_at, part};
use queries::{Link, Operand};
use terms::{Comparison, WorkCell};

// The answer behind the tuple that is the row's own.
fn find_answer(joins: &[Link], row: &[WorkCell], mut groups: Groups) -> Option<i64>
    ensures value { result ≡ answer_for (groups_left groups.entry) (tuple_of joins.now (values row.now)) }
{
    groups
        .find(|group| same_tuple(joins, row, group.tuple))
        .and_then(|group| group.answer)
}

fn operand_of(operand: Operand, row: &[WorkCell]) -> Option<i64>
    ensures value { result ≡ operand_of operand (values row.now) }
{
    match operand {
        Operand::Column { column } => cell_at(row, column),
        Operand::Zero => Some(0),
    }
}

// Keeps, in place and in order, the rows whose operand compares true with the answer of their tuple. The rows are lent
// beside their extent, because they are overwritten in place.
pub(crate) fn filter(
    joins: &[Link],
    operand: Operand,
    comparison: Comparison,
    groups: Groups,
    rows: &mut [WorkCell],
    kept: Extent,
) -> usize
    requires rows { kept.rows * kept.width ≤ length rows.old }
    ensures few { result ≤ kept.rows }
    ensures rows { rows_in result kept.width (values rows.new) ≡ filter (passes (groups_left groups.entry) joins.now operand comparison) (rows_in kept.rows kept.width (values rows.old)) }
{
    let width = kept.width;
    // How many rows are left, and so where the next one goes.
    let mut left: usize = 0;
    // By index, since the rows move within the cells that they are read from.
    for i in 0..kept.rows {
        let at = i * width;
        let row = part(rows, at, width);
        let answer = find_answer(joins, row, groups);
        if comparison.holds(operand_of(operand, row), answer) {
            rows.copy_within(at..at + width, left * width);
            left += 1;
        }
    }
    left
}
