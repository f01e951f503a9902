// A line that is no load.
use definitions::refusals::Refusal;
use std::fmt;

// The first such line, counted from 1, and why.
#[derive(Clone, Copy, Debug, PartialEq, Eq)]
pub struct Fault {
    pub line: usize,
    pub refusal: Refusal,
}

impl fmt::Display for Fault {
    fn fmt<W: fmt::Write>(&self, f: &mut fmt::Formatter<W>) -> fmt::Result {
        let Fault { line, refusal } = *self;
        write!(f, "line {line}: {refusal}")?;
        match refusal {
            Refusal::GapUnknown => {
                writeln!(f, ": the gap is none of 1, 2, 4, 8, 16, 32, 64 and 128 ms")
            }
            Refusal::OutOfRange => {
                writeln!(
                    f,
                    ": occupancy is from 1 to 2000000, jitter from 0 to 10000016000"
                )
            }
            Refusal::FieldCountWrong { .. } => {
                writeln!(f, ": a load has three fields, occupancy,gap,jitter")
            }
            Refusal::FieldUnreadable { field, .. } => {
                writeln!(f, ": field {field} is no number of ns")
            }
            _ => writeln!(f),
        }
    }
}
