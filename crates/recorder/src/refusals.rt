// Refusals in words.
use std::fmt;
use terms::Fault;
use thiserror::Error;

// The refusal of a load: its number, what it means, and the byte where the faulty record begins.
#[derive(Clone, Copy, Debug, Error)]
#[error("Refused by {}: {} (byte {}).", u8::from(.0.refusal), .0.refusal, .0.place)]
pub(crate) struct RefusedLoad(pub(crate) Fault);

// The answer to an entry.
#[derive(Clone, Copy)]
pub(crate) struct Answer(pub(crate) Result<(), Fault>);

impl fmt::Display for Answer {
    fn fmt<W: fmt::Write>(&self, f: &mut fmt::Formatter<W>) -> fmt::Result {
        match self.0 {
            Ok(()) => f.write_str("taken"),
            Err(fault) => {
                let number = u8::from(fault.refusal);
                let block = fault.block;
                write!(f, "declined by {number} in block {block}")
            }
        }
    }
}
