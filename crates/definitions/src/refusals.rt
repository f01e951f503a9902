ghost use Rattle.std.specs.Prelude.{◌≡◌, Some};
ghost use Rattle.definitions.specs.Refusals.{number, printed};

use std::error::Error;
use std::fmt;

// Why a call refuses: one case for each ground, with the values that it tells.
// The number of each ground is fixed by `number` in specs/Refusals.antt.
#[derive(Clone, Copy, PartialEq, Eq, Debug)]
pub enum Refusal {
    // entering a port
    RateUnknown,
    PortPresent,
    PortTableFull,
    // entering a virtual link, and making a load
    GapUnknown,
    OutOfRange,
    LinkPresent,
    LinkTableFull,
    // entering a hop, removing a link
    LinkUnknown,
    PortUnknown,
    HopPresent,
    KindUnsuited,
    SecondFirstHop,
    NoHopBefore,
    HopTableFull,
    // reading a text, which is to come
    BookNotEmpty,
    ByteForbidden { line: usize },
    LineUnfinished { line: usize },
    MarkMissing { line: usize },
    VersionUnknown { line: usize },
    HeadingWrong { line: usize },
    FieldCountWrong { line: usize },
    FieldUnreadable { line: usize, field: usize },
    // the entry's ground by its number: to hold a Refusal itself would need the heap, and a second enum of the grounds of
    // entries would say them twice
    EntryRefused { line: usize, ground: u8 },
    // writing a text or a listing, which is to come
    OutputShort,
    // working out
    LoadTableShort,
    PortOverloaded { port: u8 },
    PortInRing { port: u8 },
    FigurePastLimit { port: u8 },
    // questions; the first also of a working-out over tables out of order
    NoFigures,
    NoHopThere,
    NoHops,
}

impl Refusal {
    // The ground's number, from 1 to 31; by hand, since an enum with values in its cases has no numbers of its own.
    pub fn number(&self) -> u8
        ensures { result ≡ number self.now }
    {
        match self {
            Refusal::RateUnknown => 1,
            Refusal::PortPresent => 2,
            Refusal::PortTableFull => 3,
            Refusal::GapUnknown => 4,
            Refusal::OutOfRange => 5,
            Refusal::LinkPresent => 6,
            Refusal::LinkTableFull => 7,
            Refusal::LinkUnknown => 8,
            Refusal::PortUnknown => 9,
            Refusal::HopPresent => 10,
            Refusal::KindUnsuited => 11,
            Refusal::SecondFirstHop => 12,
            Refusal::NoHopBefore => 13,
            Refusal::HopTableFull => 14,
            Refusal::BookNotEmpty => 15,
            Refusal::ByteForbidden { .. } => 16,
            Refusal::LineUnfinished { .. } => 17,
            Refusal::MarkMissing { .. } => 18,
            Refusal::VersionUnknown { .. } => 19,
            Refusal::HeadingWrong { .. } => 20,
            Refusal::FieldCountWrong { .. } => 21,
            Refusal::FieldUnreadable { .. } => 22,
            Refusal::EntryRefused { .. } => 23,
            Refusal::OutputShort => 24,
            Refusal::LoadTableShort => 25,
            Refusal::PortOverloaded { .. } => 26,
            Refusal::PortInRing { .. } => 27,
            Refusal::FigurePastLimit { .. } => 28,
            Refusal::NoFigures => 29,
            Refusal::NoHopThere => 30,
            Refusal::NoHops => 31,
        }
    }
}

impl fmt::Display for Refusal {
    ghost output = { λ r. Some (printed r) };

    fn fmt<W: fmt::Write>(&self, f: &mut fmt::Formatter<W>) -> fmt::Result {
        write!(f, "refused by {}", self.number())
    }
}

impl Error for Refusal {}

#[cfg(test)]
mod tests {
    use super::*;
    use std::alloc::AllocError;

    #[test]
    fn printed(rt: HostRuntime) -> Result<(), AllocError> {
        for (refusal, text) in [
            (Refusal::RateUnknown, "refused by 1"),
            (
                Refusal::FieldUnreadable { line: 3, field: 2 },
                "refused by 22",
            ),
            (
                Refusal::EntryRefused { line: 7, ground: 5 },
                "refused by 23",
            ),
        ] {
            let printed = refusal.to_string(rt.alloc())?;
            assert_eq!(rt; printed.as_str(), text);
        }
        Ok(())
    }
}
