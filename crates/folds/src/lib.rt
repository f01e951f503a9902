// The sum and the largest of a figure over a lent slice, written once for every kind of item.
#![tactic(auto)]

ghost use Rattle.std.specs.Prelude.{◌≡◌, ℕ};
ghost use Rattle.definitions.specs.Lists.{total, largest};
ghost use Rattle.folds.specs.Folds.{Told, IsLargest};

// A way to measure items of one kind: `figure` says what an item's figure is, and `of` tells it.
// It is no closure: a contract names `figure`, where of a closure it would say "for every figure that it computes" wherever a
// sum is spoken of.
pub trait Measure {
    type Item;

    ghost figure: { Self → Self.Item → ℕ };

    // The figure of `item`, or none exactly where 64 bits do not hold it.
    fn of(&self, item: &Self::Item) -> Option<u64>
        ensures { Told (figure self.now item.now) result };
}

// The sum of the items' figures, or none exactly where 64 bits do not hold it.
pub fn sum<M: Measure>(measure: &M, items: &[M::Item]) -> Option<u64>
    ensures { Told (total (M.Measure.figure measure.now) items.now) result }
{
    items
        .iter()
        .try_fold(0u64, |so_far, item| so_far.checked_add(measure.of(item)?))
}

// The largest of the items' figures, 0 where there are none, or none exactly where 64 bits do not hold it.
pub fn largest<M: Measure>(measure: &M, items: &[M::Item]) -> Option<u64>
    ensures told { Told (largest (M.Measure.figure measure.now) items.now) result }
    ensures meant { IsLargest (M.Measure.figure measure.now) items.now (largest (M.Measure.figure measure.now) items.now) }
{
    items
        .iter()
        .try_fold(0u64, |most, item| Some(most.max(measure.of(item)?)))
}

#[cfg(test)]
mod tests {
    use super::*;

    // a number measures itself
    struct Itself;

    impl Measure for Itself {
        type Item = u64;

        ghost figure = { λ _ n. n };

        fn of(&self, item: &u64) -> Option<u64> {
            Some(*item)
        }
    }

    #[test]
    fn sums(rt: HostRuntime) {
        assert_eq!(rt; sum(&Itself, &[]), Some(0));
        assert_eq!(rt; sum(&Itself, &[3, 1, 4]), Some(8));
        assert_eq!(rt; sum(&Itself, &[u64::MAX, 0]), Some(u64::MAX));
        assert_eq!(rt; sum(&Itself, &[u64::MAX, 0, 1]), None);
    }

    #[test]
    fn largest_values(rt: HostRuntime) {
        assert_eq!(rt; largest(&Itself, &[]), Some(0));
        assert_eq!(rt; largest(&Itself, &[3, 1, 4]), Some(4));
        assert_eq!(rt; largest(&Itself, &[4, u64::MAX, 1]), Some(u64::MAX));
    }
}
