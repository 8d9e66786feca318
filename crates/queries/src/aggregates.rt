// Aggregates by their codes.
ghost use Rattle.std.specs.Prelude.{◌≡◌};
ghost use Rattle.terms.specs.Faults.{or_out_of_range};
ghost use Rattle.queries.specs.Codes.{function_number, function_numbered, aggregate_code, extreme};

use terms::{Comparison, Refusal};

// A function that makes one answer out of the cells of a column. House is the recorder's own, fixed for its program.
#[derive(Clone, Copy, PartialEq, Eq, Debug)]
pub enum Function {
    Count = 1,
    Sum = 2,
    Min = 3,
    Max = 4,
    House = 5,
}

// What an aggregate is taken of: COUNT(*) of the rows themselves, any other of the cells of one column. It is no Option, for
// COUNT(*) lacks nothing.
#[derive(Clone, Copy, PartialEq, Eq, Debug)]
pub enum Aggregate {
    CountRows,
    Of { function: Function, column: u8 },
}

impl Function {
    // The function that ALL compares with: less than all is less than the least, more than all is more than the most.
    pub fn extreme(comparison: Comparison) -> Function
        ensures { result ≡ extreme comparison }
    {
        match comparison {
            Comparison::Greater | Comparison::GreaterOrEqual => Function::Max,
            _ => Function::Min,
        }
    }
}

// By `as`, for each enum anew: no derive makes the `From` that gives an enum's number.
impl From<Function> for u8 {
    ghost from_gives = { λ function number. number ≡ function_number function };

    fn from(function: Function) -> u8 {
        function as u8
    }
}

// The function with a number; outside 1 to 5 there is none. Each enum lists its own cases: no derive makes a `TryFrom`.
impl TryFrom<u8> for Function {
    type Error = Refusal;

    ghost try_from_gives = { λ number function. function ≡ or_out_of_range (function_numbered number) };

    fn try_from(number: u8) -> Result<Function, Refusal> {
        match number {
            1 => Ok(Function::Count),
            2 => Ok(Function::Sum),
            3 => Ok(Function::Min),
            4 => Ok(Function::Max),
            5 => Ok(Function::House),
            _ => Err(Refusal::OutOfRange),
        }
    }
}

// The code: 0 for COUNT(*), else the function's number.
impl From<Aggregate> for u8 {
    ghost from_gives = { λ aggregate code. code ≡ aggregate_code aggregate };

    fn from(aggregate: Aggregate) -> u8 {
        match aggregate {
            Aggregate::CountRows => 0,
            Aggregate::Of { function, .. } => u8::from(function),
        }
    }
}
