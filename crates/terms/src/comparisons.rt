// The six comparisons of SQL.
ghost use Rattle.std.specs.Prelude.{◌≡◌};
ghost use Rattle.terms.specs.Comparisons.{comparison_number, comparison_numbered, mirrored, ordered, holds};
ghost use Rattle.terms.specs.Faults.{or_out_of_range};

use crate::refusals::Refusal;

#[derive(Clone, Copy, PartialEq, Eq, Debug)]
pub enum Comparison {
    Equal = 1,
    NotEqual = 2,
    Less = 3,
    LessOrEqual = 4,
    Greater = 5,
    GreaterOrEqual = 6,
}

impl Comparison {
    // The comparison with its sides exchanged.
    pub fn mirrored(self) -> Comparison
        ensures { result ≡ mirrored self }
    {
        match self {
            Comparison::Equal => Comparison::Equal,
            Comparison::NotEqual => Comparison::NotEqual,
            Comparison::Less => Comparison::Greater,
            Comparison::LessOrEqual => Comparison::GreaterOrEqual,
            Comparison::Greater => Comparison::Less,
            Comparison::GreaterOrEqual => Comparison::LessOrEqual,
        }
    }

    // Whether the comparison is true. With an absent side it is unknown, which is not true.
    pub fn holds(self, left: Option<i64>, right: Option<i64>) -> bool
        ensures { result ≡ holds self left right }
    {
        match (left, right) {
            (Some(a), Some(b)) => self.orders(a, b),
            _ => false,
        }
    }

    fn orders(self, left: i64, right: i64) -> bool
        ensures { result ≡ ordered self left right }
    {
        match self {
            Comparison::Equal => left == right,
            Comparison::NotEqual => left != right,
            Comparison::Less => left < right,
            Comparison::LessOrEqual => left <= right,
            Comparison::Greater => left > right,
            Comparison::GreaterOrEqual => left >= right,
        }
    }
}

// By `as`, for each enum anew: no derive makes the `From` that gives an enum's number.
impl From<Comparison> for u8 {
    ghost from_gives = { λ comparison number. number ≡ comparison_number comparison };

    fn from(comparison: Comparison) -> u8 {
        comparison as u8
    }
}

// The comparison with a number; outside 1 to 6 there is none. Each enum lists its own cases: no derive makes a `TryFrom`.
impl TryFrom<u8> for Comparison {
    type Error = Refusal;

    ghost try_from_gives = { λ number comparison. comparison ≡ or_out_of_range (comparison_numbered number) };

    fn try_from(number: u8) -> Result<Comparison, Refusal> {
        match number {
            1 => Ok(Comparison::Equal),
            2 => Ok(Comparison::NotEqual),
            3 => Ok(Comparison::Less),
            4 => Ok(Comparison::LessOrEqual),
            5 => Ok(Comparison::Greater),
            6 => Ok(Comparison::GreaterOrEqual),
            _ => Err(Refusal::OutOfRange),
        }
    }
}
