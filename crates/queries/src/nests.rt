// Nested tests: what a row of a block is tested for against the rows of the block inside.
ghost use Rattle.std.specs.Prelude.{◌≡◌};
ghost use Rattle.terms.specs.Faults.{or_out_of_range};
ghost use Rattle.queries.specs.Codes.{form_number, form_numbered, nest_form};

use crate::aggregates::Aggregate;
use terms::{Comparison, Refusal};

#[derive(Clone, Copy, PartialEq, Eq, Debug)]
pub enum Form {
    Aggregated = 1,
    In = 2,
    Exists = 3,
    NotExists = 4,
    Any = 5,
    All = 6,
}

// A nested test with just the parts that its form has. The operand is a column of the parent, the inner column one of
// the inner block.
#[derive(Clone, Copy, PartialEq, Eq, Debug)]
pub enum Nest {
    Aggregated {
        operand: u8,
        comparison: Comparison,
        aggregate: Aggregate,
    },
    In {
        operand: u8,
        inner: u8,
    },
    Exists,
    NotExists,
    Any {
        operand: u8,
        comparison: Comparison,
        inner: u8,
    },
    All {
        operand: u8,
        comparison: Comparison,
        inner: u8,
    },
}

// By `as`, for each enum anew: no derive makes the `From` that gives an enum's number.
impl From<Form> for u8 {
    ghost from_gives = { λ form number. number ≡ form_number form };

    fn from(form: Form) -> u8 {
        form as u8
    }
}

// The form with a number; outside 1 to 6 there is none. Each enum lists its own cases: no derive makes a `TryFrom`.
impl TryFrom<u8> for Form {
    type Error = Refusal;

    ghost try_from_gives = { λ number form. form ≡ or_out_of_range (form_numbered number) };

    fn try_from(number: u8) -> Result<Form, Refusal> {
        match number {
            1 => Ok(Form::Aggregated),
            2 => Ok(Form::In),
            3 => Ok(Form::Exists),
            4 => Ok(Form::NotExists),
            5 => Ok(Form::Any),
            6 => Ok(Form::All),
            _ => Err(Refusal::OutOfRange),
        }
    }
}

impl Nest {
    pub fn form(self) -> Form
        ensures { result ≡ nest_form self }
    {
        match self {
            Nest::Aggregated { .. } => Form::Aggregated,
            Nest::In { .. } => Form::In,
            Nest::Exists => Form::Exists,
            Nest::NotExists => Form::NotExists,
            Nest::Any { .. } => Form::Any,
            Nest::All { .. } => Form::All,
        }
    }
}
