// The figures of one port, from its loads.
ghost use Rattle.std.specs.Prelude.{◌+◌, if◌then◌else◌, nat_eq};
ghost use Rattle.working_out.specs.Settling.{held, Figured};

use crate::rows::HopRow;
use definitions::loads::Load;
use folds::Measure;
use methods::{LIMIT, Method};

// How many frames of a load a port of this backlog holds at most. The count is that of the windows of `methods`, where it is
// private: to hand it out would take more than the line that it saves here.
#[derive(Drop)]
struct HeldFrames {
    backlog: u64,
}

impl Measure for HeldFrames {
    type Item = Load;

    ghost figure = { λ m l. held m.backlog l };

    fn of(&self, load: &Load) -> Option<u64> {
        let since = u128::from(self.backlog.saturating_sub(1)) + u128::from(load.jitter);
        let gaps = since.checked_div(u128::from(load.gap)).unwrap_or(0);
        u64::try_from(1 + gaps).ok()
    }
}

// The departure of a hop at the port; 0 of a hop elsewhere.
#[derive(Drop)]
struct DepartureAt {
    port: u8,
    backlog: u64,
}

impl Measure for DepartureAt {
    type Item = HopRow;

    ghost figure = { λ m y. (if nat_eq y.hop.port m.port then y.latest + m.backlog else 0) };

    fn of(&self, row: &HopRow) -> Option<u64> {
        if row.hop.port == self.port {
            row.latest.checked_add(self.backlog)
        } else {
            Some(0)
        }
    }
}

// The backlog and the depth of a port; none where the method gives none or a departure exceeds the limit.
pub(crate) fn figures<M: Method>(
    method: &M,
    hops: &[HopRow],
    port: u8,
    loads: &[Load],
) -> Option<(u64, u64)>
    ensures { Figured (M.Method.worth method.now) hops.now port loads.now result }
{
    let backlog = method.answer(loads)?;
    if folds::largest(&DepartureAt { port, backlog }, hops)? > LIMIT {
        return None;
    }
    let depth = folds::sum(&HeldFrames { backlog }, loads)?;
    Some((backlog, depth))
}
