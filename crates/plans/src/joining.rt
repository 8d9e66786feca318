// The inner blocks of a plan, with their join conditions.
ghost use Rattle.std.specs.Prelude.{◌≡◌, ◌+◌, ◌≤◌, [], ◌++◌, map, length};
ghost use Rattle.std.specs.Option.{option_to_list};
ghost use Rattle.bounded.specs.Listed.{listed};
ghost use Rattle.meaning.specs.Plans.{translated, inner_blocks};
ghost use Rattle.sheets.specs.Held.{inner_of};
ghost use Rattle.plans.specs.Translated.{block_of, flats_of, inside};

use crate::blocks::TranslatedBlock;
use crate::unnesting::unnest;
use bounded::Bounded;
use queries::Link;
use sheets::InnerBlock;

pub(crate) fn no_joins() -> Bounded<Link, 4>
    ensures { listed result ≡ [] }
{
    Bounded::new(Link::BLANK)
}

// The join conditions of a block: its links, and behind them the one that its nested test adds.
fn joins_of(links: &Bounded<Link, 3>, further: Option<Link>) -> Bounded<Link, 4>
    ensures { listed result ≡ listed links.now ++ option_to_list further }
{
    let mut joins = no_joins();
    joins.extend(links.as_slice()).unwrap();
    if let Some(join) = further {
        joins.push(join).unwrap();
    }
    joins
}

// A block inside block `parent`.
fn inner_block(block: &InnerBlock, parent: u8) -> TranslatedBlock
    ensures { block_of result ≡ inside parent (translated (inner_of block.now)) }
{
    let nest = unnest(block.nest);
    TranslatedBlock {
        table: block.table,
        tests: block.tests,
        joins: joins_of(&block.links, nest.further),
        parent,
    }
}

// The blocks inside block `parent`, from its child inward. By recursion and no `for`: a rule of the project, so that
// translating goes as its definition does.
pub(crate) fn inner_blocks(
    inner: &[InnerBlock],
    parent: u8,
    blocks: &mut Bounded<TranslatedBlock, 4>,
)
    requires room { length (listed blocks.old) + length inner.now ≤ 4 }
    requires numbered { parent + length inner.now ≤ 3 }
    ensures { map block_of (listed blocks.new) ≡ map block_of (listed blocks.old) ++ inner_blocks parent (flats_of inner.now) }
{
    if let [first, rest @ ..] = inner {
        blocks.push(inner_block(first, parent)).unwrap();
        inner_blocks(rest, parent + 1, blocks);
    }
}
