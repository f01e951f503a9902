// Methods: ways to bound the backlog of an output port from the list of its loads.
#![tactic(auto)]

ghost use Rattle.std.specs.Prelude.{◌≡◌, ℕ, ◌<◌, ◌≤◌, List, MatchOption};
ghost use Rattle.definitions.specs.declared.loads.Load.{Load as LoadRow};
ghost use Rattle.definitions.specs.Methods.{Lawful, Answers, limit};

use definitions::loads::Load;

pub mod forward_analysis;
mod measures;
pub mod network_calculus;
pub mod overload;
#[cfg(test)]
mod tests;

// A method; a trait and no closure, since contracts name its worth and it brings the law of it. `worth` is what it means: a number for every list of loads that is not overloaded,
// which is at least W(t) − t for every whole t.
pub trait Method {
    ghost worth: { Self → List LoadRow → ℕ };

    // The worth of the list, or none exactly where a row is no load, the list is overloaded,
    // or the worth exceeds 10,000,000,000 ns. Each method tests the rows itself: to share that line here
    // would take a type of its own for rows that were tested.
    fn answer(&self, rows: &[Load]) -> Option<u64>
        ensures { Answers (worth self.now) rows.now result };

    ghost lawful: { (m : Self) → Lawful (worth m) };
}

// The largest answer of a method: 10 s.
pub const LIMIT: u64 = 10_000_000_000;

fn within_limit(worth: u64) -> Option<u64>
    ensures { MatchOption result (limit < worth) (λ w. (w ≡ worth) × (worth ≤ limit)) }
{
    (worth <= LIMIT).then_some(worth)
}
