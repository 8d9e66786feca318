// Items written one behind the other.
ghost use Rattle.std.specs.Iterator.{IsFinite};

use std::fmt;
use std::iter::{once, repeat};

// One text stands before the first item, and another before each of the others.
pub(crate) fn write_joined<W: fmt::Write, I: Iterator + Drop>(
    f: &mut fmt::Formatter<W>,
    first: &str,
    between: &str,
    items: I,
) -> fmt::Result
where
    I::Item: fmt::Display + Drop,
    requires can { I.can_next items }
    requires ends { IsFinite (I.remaining items) }
{
    for (before, item) in once(first).chain(repeat(between)).zip(items) {
        write!(f, "{before}{item}")?;
    }
    Ok(())
}
