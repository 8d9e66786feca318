// PROJECT: the distinct tuples of the cells that join conditions name in the parent's rows.
ghost use Rattle.std.specs.Prelude.{◌≡◌, ◌+◌, ◌*◌, ◌≤◌, map, length};
ghost use Rattle.std.proofs.Math.Seq.{paste};
ghost use Rattle.meaning.specs.Rows.{alike};
ghost use Rattle.meaning.specs.Running.{distinct, tuple_of, unanswered};
ghost use Rattle.engine.specs.Rows.{values, groups_in};
ghost use Rattle.engine.specs.Iterators.{rows_left};

use crate::groups::Groups;
use crate::rows::{Rows, cell_at};
use queries::Link;
use terms::WorkCell;

// Whether the cells of a row that the join conditions name make the tuple.
pub(crate) fn same_tuple(joins: &[Link], row: &[WorkCell], tuple: &[WorkCell]) -> bool
    ensures value { result ≡ alike (tuple_of joins.now (values row.now)) (values tuple.now) }
{
    joins
        .iter()
        .map(|join| cell_at(row, join.parent))
        .eq(tuple.iter().map(|cell| cell.value))
}

// Writes the cells of a row that the join conditions name from a place on.
fn store_tuple(joins: &[Link], row: &[WorkCell], keys: &mut [WorkCell], at: usize)
    requires room { at + length joins.now ≤ length keys.old }
    ensures cells { values keys.new ≡ paste (values keys.old) at (tuple_of joins.now (values row.now)) (length joins.now) }
{
    // By index, as OUTPUT writes its rows: a proof knows nothing of the cells once a zip with iter_mut has written them.
    for (i, join) in joins.iter().enumerate() {
        keys[at + i] = WorkCell {
            value: cell_at(row, join.parent),
        };
    }
}

// Writes each tuple once, in the order of the rows, with an absent answer behind it.
pub(crate) fn project(joins: &[Link], rows: Rows, keys: &mut [WorkCell]) -> usize
    requires room { rows.count * (length joins.now + 1) ≤ length keys.old }
    ensures few { result ≤ rows.entry.count }
    ensures groups { groups_in result (length joins.now + 1) (values keys.new) ≡ map unanswered (distinct (map (tuple_of joins.now) (rows_left rows.entry))) }
{
    let len = joins.len();
    let width = len + 1;
    // How many tuples there are, and so where the next one goes.
    let mut tuples: usize = 0;
    'rows: for row in rows {
        let groups = Groups {
            keys: &*keys,
            count: tuples,
            tuple_len: len,
        };
        // A loop and no `any`: a rule of the project, PROJECT goes on with the next row from inside.
        for group in groups {
            if same_tuple(joins, row, group.tuple) {
                continue 'rows;
            }
        }
        store_tuple(joins, row, keys, tuples * width);
        keys[tuples * width + len] = WorkCell { value: None };
        tuples += 1;
    }
    tuples
}
