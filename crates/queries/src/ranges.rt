// Entries read: every number that is used has to be in its range.
ghost use Rattle.std.specs.Prelude.{◌≡◌, cond, Some, None};
ghost use Rattle.terms.specs.Faults.{or_out_of_range};
ghost use Rattle.queries.specs.Entries.{table_in_range, column_in_range, constant_in_range, read_test, read_link, read_aggregate, read_compared, read_quantified, read_nest, read};

use crate::aggregates::{Aggregate, Function};
use crate::entries::{Entry, Part};
use crate::nests::{Form, Nest};
use crate::parts::{Link, Test};
use terms::{Comparison, Refusal, is_column, is_table};

// What an entry stands for, where every number that it uses is in range.
impl TryFrom<Entry> for Part {
    type Error = Refusal;

    ghost try_from_gives = { λ entry part. part ≡ or_out_of_range (read entry) };

    fn try_from(entry: Entry) -> Result<Part, Refusal> {
        match entry {
            Entry::Open { table } => Ok(Part::Outermost {
                table: table_in_range(table)?,
            }),
            Entry::Test {
                column,
                comparison,
                constant,
            } => Ok(Part::Tested {
                test: read_test(column, comparison, constant)?,
            }),
            Entry::Link {
                column,
                comparison,
                parent,
            } => Ok(Part::Linked {
                link: read_link(column, comparison, parent)?,
            }),
            Entry::Nest {
                form,
                table,
                operand,
                comparison,
                code,
                inner,
            } => {
                let nest = read_nest(form, operand, comparison, code, inner)?;
                let table = table_in_range(table)?;
                Ok(Part::Nested { nest, table })
            }
            Entry::Select { column } => Ok(Part::Selected {
                column: column_in_range(column)?,
            }),
            Entry::Finish => Ok(Part::Finished),
        }
    }
}

// Two functions of one expression each, and no one over the test, so that a reading says which range it asks for.
fn table_in_range(number: u8) -> Result<u8, Refusal>
    ensures { result ≡ or_out_of_range (table_in_range number) }
{
    is_table(number)
        .then_some(number)
        .ok_or(Refusal::OutOfRange)
}

fn column_in_range(number: u8) -> Result<u8, Refusal>
    ensures { result ≡ or_out_of_range (column_in_range number) }
{
    is_column(number)
        .then_some(number)
        .ok_or(Refusal::OutOfRange)
}

fn constant_in_range(number: i64) -> Result<i32, Refusal>
    ensures { result ≡ or_out_of_range (constant_in_range number) }
{
    i32::try_from(number).map_err(|_| Refusal::OutOfRange)
}

// A test and a link are read each by itself, since they are two types, whose last part has a range of its own in each.
fn read_test(column: u8, comparison: u8, constant: i64) -> Result<Test, Refusal>
    ensures { result ≡ or_out_of_range (read_test column comparison constant) }
{
    Ok(Test {
        column: column_in_range(column)?,
        comparison: Comparison::try_from(comparison)?,
        constant: constant_in_range(constant)?,
    })
}

fn read_link(column: u8, comparison: u8, parent: u8) -> Result<Link, Refusal>
    ensures { result ≡ or_out_of_range (read_link column comparison parent) }
{
    Ok(Link {
        column: column_in_range(column)?,
        comparison: Comparison::try_from(comparison)?,
        parent: column_in_range(parent)?,
    })
}

// Each form looks at its own parts alone. The numbers come one by one, as the entry has them.
fn read_nest(form: u8, operand: u8, comparison: u8, code: u8, inner: u8) -> Result<Nest, Refusal>
    ensures { result ≡ or_out_of_range (read_nest form operand comparison code inner) }
{
    Ok(match Form::try_from(form)? {
        Form::Aggregated => {
            let (operand, comparison) = read_compared(operand, comparison)?;
            let aggregate = read_aggregate(code, inner)?;
            Nest::Aggregated {
                operand,
                comparison,
                aggregate,
            }
        }
        Form::In => Nest::In {
            operand: column_in_range(operand)?,
            inner: column_in_range(inner)?,
        },
        Form::Exists => Nest::Exists,
        Form::NotExists => Nest::NotExists,
        Form::Any => {
            let (operand, comparison, inner) = read_quantified(operand, comparison, inner)?;
            Nest::Any {
                operand,
                comparison,
                inner,
            }
        }
        Form::All => {
            let (operand, comparison, inner) = read_quantified(operand, comparison, inner)?;
            Nest::All {
                operand,
                comparison,
                inner,
            }
        }
    })
}

// A column of the parent, and how it is compared.
fn read_compared(operand: u8, comparison: u8) -> Result<(u8, Comparison), Refusal>
    ensures { result ≡ or_out_of_range (read_compared operand comparison) }
{
    Ok((column_in_range(operand)?, Comparison::try_from(comparison)?))
}

// The same, and a column of the inner block: the parts of ANY and of ALL.
fn read_quantified(operand: u8, comparison: u8, inner: u8) -> Result<(u8, Comparison, u8), Refusal>
    ensures { result ≡ or_out_of_range (read_quantified operand comparison inner) }
{
    let (operand, comparison) = read_compared(operand, comparison)?;
    Ok((operand, comparison, column_in_range(inner)?))
}

// COUNT(*) has no inner column.
fn read_aggregate(code: u8, inner: u8) -> Result<Aggregate, Refusal>
    ensures { result ≡ or_out_of_range (read_aggregate code inner) }
{
    if code == 0 {
        return Ok(Aggregate::CountRows);
    }
    Ok(Aggregate::Of {
        function: Function::try_from(code)?,
        column: column_in_range(inner)?,
    })
}
