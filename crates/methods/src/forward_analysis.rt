// Forward Analysis, without serialization.
ghost use Rattle.std.specs.Prelude.{◌≡◌, ℕ, ◌<◌, ◌≤◌, MatchOption};
ghost use Rattle.definitions.specs.Loads.{AreLoads};
ghost use Rattle.definitions.specs.Windows.{horizon, W};
ghost use Rattle.definitions.specs.Methods.{forward, limit};
ghost use Rattle.theory.proofs.Largest.{forward_is_the_least_lawful};

use crate::measures::{HORIZON, Nearness, Window};
use crate::overload::carried;
use crate::{Method, within_limit};
use definitions::loads::Load;

// The method whose worth is the largest of W(t) − t over all whole t.
#[derive(Clone, Copy)]
pub struct Forward;

impl Method for Forward {
    ghost worth = { λ _. forward };

    ghost lawful = { λ m. forward_is_the_least_lawful.0 };

    fn answer(&self, rows: &[Load]) -> Option<u64> {
        if !carried(rows) {
            return None;
        }
        within_limit(largest_backlog(rows)?)
    }
}

// The largest of W(t) − t. W rises only at arrival dates, so each is tried, from 0 on, until the
// port falls idle before the next one or the horizon is reached. None where 64 bits do not hold a W(t), which only
// a largest past the limit allows.
fn largest_backlog(rows: &[Load]) -> Option<u64>
    requires { AreLoads rows.now }
    ensures { MatchOption result (limit < forward rows.now) (λ w. w ≡ forward rows.now) }
{
    let mut date = 0;
    let mut worst = 0u64;
    loop {
        let work = folds::sum(&Window { t: date }, rows)?;
        worst = worst.max(work.saturating_sub(date));
        let next = next_date(rows, date);
        if work < next || HORIZON <= next {
            return Some(worst);
        }
        date = next;
    }
}

// The first date after `date` at which a load can bring a frame; a horizon later where there are no loads. The nearness of a
// load always fits 64 bits, so that the next ns is never the answer.
#[tactic(auto, using(crate::proofs::Nearest::flat_before_nearest), unfolding(definitions::specs::Windows::horizon))]
fn next_date(rows: &[Load], date: u64) -> u64
    requires loads { AreLoads rows.now }
    requires within { date < horizon }
    ensures later { date < result }
    ensures flat { (u : ℕ) → date ≤ u → u < result → W rows.now u ≡ W rows.now date }
{
    folds::largest(&Nearness { t: date }, rows).map_or(
        date + 1,
        |nearness| date + (HORIZON - nearness),
    )
}
