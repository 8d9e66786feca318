// Tuples with their answers. The key of a group is a row: the cells of its tuple, and its answer behind them.
ghost use Rattle.std.specs.Prelude.{◌+◌, ◌*◌, ◌≤◌, length};

use terms::WorkCell;

// The groups of so many keys, with so many cells in a tuple. As an iterator it gives them from the first one on. It is no
// map over Rows, whose items do not say how many cells they have.
#[derive(Clone, Copy)]
pub(crate) struct Groups<'a> {
    pub(crate) keys: &'a [WorkCell],
    pub(crate) count: usize,
    pub(crate) tuple_len: usize,
    ghost within: { count * (tuple_len + 1) ≤ length keys.now },
}

// A tuple and its answer.
#[derive(Clone, Copy)]
pub(crate) struct Group<'a> {
    pub(crate) tuple: &'a [WorkCell],
    pub(crate) answer: Option<i64>,
}

impl<'a> Iterator for Groups<'a> {
    ghost use Rattle.std.specs.Iterator.{YieldsFirstBy, item_count};
    ghost use Rattle.engine.specs.Iterators.{group_of, groups_left};

    type Item = Group<'a>;

    ghost next_gives = { YieldsFirstBy group_of groups_left };

    ghost remaining = { item_count groups_left };

    fn next(&mut self) -> Option<Group<'a>> {
        let count = self.count.checked_sub(1)?;
        let tuple_len = self.tuple_len;
        let (key, keys) = self.keys.split_at(tuple_len + 1);
        *self = Groups {
            keys,
            count,
            tuple_len,
        };
        Some(Group {
            tuple: &key[..tuple_len],
            answer: key[tuple_len].value,
        })
    }
}
