// Nested tests, translated: each becomes one comparison with an aggregate of the inner block.
ghost use Rattle.std.specs.Prelude.{◌≡◌, []};
ghost use Rattle.meaning.specs.Queries.{Inner};
ghost use Rattle.meaning.specs.Plans.{flat, flat_any};
ghost use Rattle.std.specs.Option.{option_to_list};
ghost use Rattle.queries.specs.declared.steps.Operand.TheVariants as operands;
ghost use Rattle.queries.specs.declared.aggregates.Aggregate.TheVariants as aggregates;
ghost use Rattle.plans.specs.Unnesting.{flat_by, Unnests};

use queries::{Aggregate, Function, Link, Nest, Operand};
use terms::Comparison;

// What the translation of a nested test compares, with the join condition that it may add to the inner block.
#[derive(Clone, Copy)]
pub(crate) struct Unnested {
    pub(crate) operand: Operand,
    pub(crate) comparison: Comparison,
    pub(crate) aggregate: Aggregate,
    pub(crate) further: Option<Link>,
}

// The number 0 compared with COUNT(*).
fn counted(comparison: Comparison, further: Option<Link>) -> Unnested
    ensures { (b : Inner) → flat_by b result ≡ flat b (option_to_list further) operands.Zero comparison aggregates.CountRows }
{
    Unnested {
        operand: Operand::Zero,
        comparison,
        aggregate: Aggregate::CountRows,
        further,
    }
}

// A column of the parent compared with an aggregate.
fn compared(column: u8, comparison: Comparison, aggregate: Aggregate) -> Unnested
    ensures { (b : Inner) → flat_by b result ≡ flat b [] (operands.Column column) comparison aggregate }
{
    Unnested {
        operand: Operand::Column { column },
        comparison,
        aggregate,
        further: None,
    }
}

// ANY asks for one inner row that compares true, so the comparison becomes a join condition, seen from the inner block.
fn any(operand: u8, comparison: Comparison, inner: u8) -> Unnested
    ensures { (b : Inner) → flat_by b result ≡ flat_any b operand comparison inner }
{
    let further = Link {
        column: inner,
        comparison: comparison.mirrored(),
        parent: operand,
    };
    counted(Comparison::Less, Some(further))
}

pub(crate) fn unnest(nest: Nest) -> Unnested
    ensures { Unnests nest result }
{
    match nest {
        Nest::Aggregated {
            operand,
            comparison,
            aggregate,
        } => compared(operand, comparison, aggregate),
        Nest::In { operand, inner } => any(operand, Comparison::Equal, inner),
        Nest::Exists => counted(Comparison::Less, None),
        Nest::NotExists => counted(Comparison::Equal, None),
        Nest::Any {
            operand,
            comparison,
            inner,
        } => any(operand, comparison, inner),
        Nest::All {
            operand,
            comparison,
            inner,
        } => {
            let function = Function::extreme(comparison);
            compared(
                operand,
                comparison,
                Aggregate::Of {
                    function,
                    column: inner,
                },
            )
        }
    }
}
