// A query, translated.
ghost use Rattle.std.specs.Prelude.{◌≡◌, map};
ghost use Rattle.bounded.specs.Listed.{listed};
ghost use Rattle.meaning.specs.Plans.{plan};
ghost use Rattle.sheets.specs.Held.{query_of};
ghost use Rattle.plans.specs.Translated.{block_of, plan_of};

use crate::blocks::{TranslatedBlock, TranslatedQuery};
use crate::joining::{inner_blocks, no_joins};
use crate::steps::{restrict_steps, unnest_steps};
use bounded::Bounded;
use queries::Step;
use sheets::SheetQuery;

// Block 0, which is its own parent, and then the inner blocks.
fn blocks_of(query: &SheetQuery) -> Bounded<TranslatedBlock, 4>
    ensures { map block_of (listed result) ≡ (plan (query_of query.now)).blocks }
{
    let outermost = TranslatedBlock {
        table: query.table,
        tests: query.tests,
        joins: no_joins(),
        parent: 0,
    };
    let mut blocks = Bounded::new(outermost);
    blocks.push(outermost).unwrap();
    inner_blocks(query.inner.as_slice(), 0, &mut blocks);
    blocks
}

// RESTRICT for every block, then the steps that take the inner blocks off their parents, and OUTPUT.
fn steps_of(query: &SheetQuery) -> Bounded<Step, 14>
    ensures { listed result ≡ (plan (query_of query.now)).steps }
{
    let inner = query.inner.as_slice();
    let output = Step::Output { rows: 0 };
    let mut steps = Bounded::new(output);
    restrict_steps(inner, 1, &mut steps);
    steps.push(Step::Restrict { block: 0, rows: 0 }).unwrap();
    unnest_steps(inner, 0, &mut steps);
    steps.push(output).unwrap();
    steps
}

pub(crate) fn translated_query(query: &SheetQuery) -> TranslatedQuery
    ensures { plan_of result ≡ plan (query_of query.now) }
{
    TranslatedQuery {
        blocks: blocks_of(query),
        steps: steps_of(query),
        outputs: query.outputs,
    }
}
