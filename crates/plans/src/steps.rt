// The steps of a plan: the innermost block first.
ghost use Rattle.std.specs.Prelude.{◌≡◌, suc, ◌+◌, ◌*◌, ◌<◌, ◌≤◌, ◌++◌, length};
ghost use Rattle.bounded.specs.Listed.{listed};
ghost use Rattle.meaning.specs.Plans.{translated, restricts, unnest, unnests};
ghost use Rattle.sheets.specs.Held.{inner_of};
ghost use Rattle.plans.specs.Translated.{flats_of};

use crate::unnesting::unnest;
use bounded::Bounded;
use queries::Step;
use sheets::InnerBlock;

// RESTRICT for the inner blocks, which are numbered from `block`, the innermost first. By recursion and no `for`: a rule of
// the project, so that translating goes as its definition does.
pub(crate) fn restrict_steps(inner: &[InnerBlock], block: u8, steps: &mut Bounded<Step, 14>)
    requires room { length (listed steps.old) + length inner.now ≤ 14 }
    requires numbered { block + length inner.now ≤ 4 }
    ensures { listed steps.new ≡ listed steps.old ++ restricts block (flats_of inner.now) }
{
    if let [_, rest @ ..] = inner {
        restrict_steps(rest, block + 1, steps);
        steps.push(Step::Restrict { block, rows: block }).unwrap();
    }
}

// PROJECT, GROUP and FILTER for the block inside block `parent`.
fn block_steps(block: &InnerBlock, parent: u8) -> [Step; 3]
    requires { parent < 3 }
    ensures { result ≡ unnest (suc parent) parent (translated (inner_of block.now)) }
{
    let nest = unnest(block.nest);
    let number = parent + 1;
    [
        Step::Project {
            block: number,
            rows: parent,
            tuples: number,
        },
        Step::Group {
            block: number,
            rows: number,
            tuples: number,
            aggregate: nest.aggregate,
        },
        Step::Filter {
            block: number,
            rows: parent,
            tuples: number,
            operand: nest.operand,
            comparison: nest.comparison,
        },
    ]
}

// The same for all blocks inside block `parent`, the innermost first and by recursion too.
pub(crate) fn unnest_steps(inner: &[InnerBlock], parent: u8, steps: &mut Bounded<Step, 14>)
    requires room { length (listed steps.old) + 3 * length inner.now ≤ 14 }
    requires numbered { parent + length inner.now ≤ 3 }
    ensures { listed steps.new ≡ listed steps.old ++ unnests parent (flats_of inner.now) }
{
    if let [first, rest @ ..] = inner {
        unnest_steps(rest, parent + 1, steps);
        steps.extend(&block_steps(first, parent)).unwrap();
    }
}
