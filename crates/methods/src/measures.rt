// What a list of loads is measured by. Each figure is told for any row, whatever it holds.
ghost use Rattle.std.specs.Prelude.{◌≡◌, ℕ, ◌+◌, ◌-◌, ◌*◌, ◌/◌, ◌%◌};
ghost use Rattle.definitions.specs.Windows.{horizon, window};
ghost use Rattle.definitions.specs.Methods.{share};
ghost use Rattle.folds.specs.Folds.{Told};

use definitions::loads::Load;
use folds::Measure;

// 128 ms: every gap divides it.
pub const HORIZON: u64 = 128_000_000;

// What a load brings to the port in one horizon.
#[derive(Clone, Copy)]
pub struct Demand;

impl Measure for Demand {
    type Item = Load;

    ghost figure = { λ _ l. l.occupancy * (horizon / l.gap) };

    #[tactic(auto, unfolding(definitions::specs::Windows::horizon))]
    fn of(&self, load: &Load) -> Option<u64> {
        let frames = HORIZON.checked_div(load.gap).unwrap_or(0);
        load.occupancy.checked_mul(frames)
    }
}

// The window of a load: what it brings at the moments 0 .. t.
#[derive(Clone, Copy)]
pub struct Window {
    pub t: u64,
}

impl Measure for Window {
    type Item = Load;

    ghost figure = { λ m l. window l m.t };

    fn of(&self, load: &Load) -> Option<u64> {
        let since = u128::from(self.t) + u128::from(load.jitter);
        let (gaps, _) = divided(since, load.gap);
        narrowed((1 + gaps).checked_mul(u128::from(load.occupancy))?)
    }
}

// How near the next frame of a load is after t, counted back from the horizon.
#[derive(Clone, Copy)]
pub struct Nearness {
    pub t: u64,
}

impl Measure for Nearness {
    type Item = Load;

    ghost figure = { λ m l. horizon - (l.gap - (m.t + l.jitter) % l.gap) };

    #[tactic(auto, unfolding(definitions::specs::Windows::horizon))]
    fn of(&self, load: &Load) -> Option<u64> {
        let since = u128::from(self.t) + u128::from(load.jitter);
        let (_, past) = divided(since, load.gap);
        let wait = u128::from(load.gap).saturating_sub(past);
        narrowed(u128::from(HORIZON).saturating_sub(wait))
    }
}

// Line's share of a load: its occupancy and the burst that its jitter adds, rounded up.
#[derive(Clone, Copy)]
pub struct Share;

impl Measure for Share {
    type Item = Load;

    ghost figure = { λ _ l. share l };

    fn of(&self, load: &Load) -> Option<u64> {
        let occupancy = u128::from(load.occupancy);
        let shifted = occupancy * u128::from(load.jitter);
        let (burst, _) = divided(shifted + u128::from(load.gap.saturating_sub(1)), load.gap);
        narrowed(occupancy.checked_add(burst)?)
    }
}

// Quotient and remainder; by 0 they are 0 and the number itself, as in the definitions.
// Numbers of 64 bits, the usual case, are divided as such: 128 bits throughout took twice as long.
fn divided(n: u128, by: u64) -> (u128, u128)
    ensures quotient { result.0 ≡ n / by }
    ensures remainder { result.1 ≡ n % by }
{
    if by == 0 {
        return (0, n);
    }
    match u64::try_from(n) {
        Ok(narrow) => (u128::from(narrow / by), u128::from(narrow % by)),
        Err(_) => (n / u128::from(by), n % u128::from(by)),
    }
}

// The number, or none where 64 bits do not hold it.
fn narrowed(n: u128) -> Option<u64>
    ensures { Told n result }
{
    u64::try_from(n).ok()
}
