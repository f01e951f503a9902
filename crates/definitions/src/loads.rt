ghost use Rattle.std.specs.Prelude.{◌≡◌, ◌↔◌, IsTrue};
ghost use Rattle.definitions.specs.Loads.{IsGap, InRange, IsLoad, Making};

use crate::refusals::Refusal;

// The largest occupancy and the largest jitter of a load, in ns.
pub const MOST_OCCUPANCY: u64 = 2_000_000;

pub const MOST_JITTER: u64 = 10_000_016_000;

// What one virtual link brings to an output port: its longest frame occupies the port for
// `occupancy`, frames are released at least `gap` apart and arrive up to `jitter` early or late
// of that rhythm. All in ns. The fields are open, so a row of a lent table may hold anything;
// `is_load` says whether a row keeps the rules, and `new` makes only such rows.
#[derive(Clone, Copy, Default, PartialEq, Eq, Debug)]
pub struct Load {
    pub occupancy: u64,
    pub gap: u64,
    pub jitter: u64,
}

impl Load {
    // The checked maker: the gap is tried first, then the ranges of occupancy and jitter.
    pub fn new(occupancy: u64, gap: u64, jitter: u64) -> Result<Load, Refusal>
        ensures { Making (record { occupancy = occupancy; gap = gap; jitter = jitter }) result }
    {
        if !is_gap(gap) {
            return Err(Refusal::GapUnknown);
        }
        let load = Load {
            occupancy,
            gap,
            jitter,
        };
        if !load.in_range() {
            return Err(Refusal::OutOfRange);
        }
        Ok(load)
    }

    // Whether this row keeps the rules of a load.
    pub fn is_load(&self) -> bool
        ensures { IsTrue result ↔ IsLoad self.now }
    {
        is_gap(self.gap) && self.in_range()
    }

    fn in_range(&self) -> bool
        ensures { IsTrue result ↔ InRange self.now }
    {
        (1..=MOST_OCCUPANCY).contains(&self.occupancy) && self.jitter <= MOST_JITTER
    }
}

fn is_gap(gap: u64) -> bool
    ensures { IsTrue result ↔ IsGap gap }
{
    matches!(
        gap,
        1_000_000
            | 2_000_000
            | 4_000_000
            | 8_000_000
            | 16_000_000
            | 32_000_000
            | 64_000_000
            | 128_000_000
    )
}

#[cfg(test)]
mod tests {
    use super::*;

    // The number of the ground on which the load is refused, or none where it is made.
    fn ground(occupancy: u64, gap: u64, jitter: u64) -> Option<u8> {
        Some(Load::new(occupancy, gap, jitter).err()?.number())
    }

    #[test]
    fn makings(rt: HostRuntime) {
        for (occupancy, gap, jitter, number) in [
            (1, 1_000_000, 0, None),
            (2_000_000, 128_000_000, 10_000_016_000, None),
            (1, 3_000_000, 0, Some(4)),
            (0, 1_000_000, 0, Some(5)),
            (2_000_001, 1_000_000, 0, Some(5)),
            (1, 1_000_000, 10_000_016_001, Some(5)),
            // the gap is tried first
            (0, 3_000_000, 10_000_016_001, Some(4)),
        ] {
            assert_eq!(rt; ground(occupancy, gap, jitter), number);
        }
    }
}
