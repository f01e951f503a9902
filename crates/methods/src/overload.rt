// Whether the loads of a port are loads at all, and whether the port can carry them.
ghost use Rattle.std.specs.Prelude.{◌↔◌, IsTrue};
ghost use Rattle.definitions.specs.Loads.{AreLoads};
ghost use Rattle.definitions.specs.Windows.{demand, Overloaded};
ghost use Rattle.folds.specs.Folds.{Told};

use crate::measures::Demand;
pub use crate::measures::HORIZON;
use definitions::loads::Load;

// What the rows bring to the port in 128 ms, in ns, or none exactly where 64 bits do not hold it.
pub fn demand(rows: &[Load]) -> Option<u64>
    ensures { Told (demand rows.now) result }
{
    folds::sum(&Demand, rows)
}

// Whether the demand exceeds 128 ms in 128 ms.
#[tactic(auto, unfolding(definitions::specs::Windows::horizon))]
pub fn overloaded(rows: &[Load]) -> bool
    ensures { IsTrue result ↔ Overloaded rows.now }
{
    demand(rows).is_none_or(|brought| HORIZON < brought)
}

// Whether every row is a load.
pub fn are_loads(rows: &[Load]) -> bool
    ensures { IsTrue result ↔ AreLoads rows.now }
{
    rows.iter().all(Load::is_load)
}

// Whether the rows are loads that the port can carry.
pub fn carried(rows: &[Load]) -> bool
    ensures { IsTrue result ↔ (AreLoads rows.now × ¬ Overloaded rows.now) }
{
    are_loads(rows) && !overloaded(rows)
}
