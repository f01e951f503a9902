// Keys and their order.
ghost use Rattle.std.specs.Prelude.{◌≡◌, Bool, true, nat_lt};
ghost use Rattle.std.specs.Ordering.{MatchOrdering};
ghost use Rattle.register.specs.Orders.{ExactlyOne, pair_before};
ghost use Rattle.std.proofs.Common.{rules};
ghost use Rattle.register.specs.Pairs.{pairs_exactly_one, pairs_carry};

use std::cmp::Ordering;

// What records are kept in order by. Of two keys exactly one holds: the first is before the second, they are
// the same, or the second is before the first; and before carries over. `std::cmp::Ord` says less: keys that it calls
// equal need not be the same; with that law beside it, the order would be told from its three-way `cmp`, and no impl saved.
pub trait Key: Copy {
    ghost before: { Self → Self → Bool };

    // How this key stands to another: before it, the same, or after it.
    fn against(self, other: Self) -> Ordering
        ensures { MatchOrdering result (before self other ≡ true) (self ≡ other) (before other self ≡ true) };

    ghost trichotomy: { (a b : Self) → ExactlyOne (before a b ≡ true) (a ≡ b) (before b a ≡ true) };

    ghost transitive: { (a b c : Self) → before a b ≡ true → before b c ≡ true → before a c ≡ true };
}

impl Key for u8 {
    ghost before = { nat_lt };

    ghost trichotomy = { Prim.search rules };

    ghost transitive = { Prim.search rules };

    fn against(self, other: u8) -> Ordering {
        self.cmp(&other)
    }
}

// As for u8: one impl for both would need a trait of all unsigned numbers, and be no plainer.
impl Key for u16 {
    ghost before = { nat_lt };

    ghost trichotomy = { Prim.search rules };

    ghost transitive = { Prim.search rules };

    fn against(self, other: u16) -> Ordering {
        self.cmp(&other)
    }
}

// Pairs, by the first part and then by the second.
impl<A1: Key, B1: Key> Key for (A1, B1) {
    ghost before = { pair_before A1.Key.before B1.Key.before };

    ghost trichotomy = { pairs_exactly_one A1.Key.before B1.Key.before A1.Key.trichotomy B1.Key.trichotomy };

    ghost transitive = { pairs_carry A1.Key.before B1.Key.before A1.Key.trichotomy B1.Key.trichotomy A1.Key.transitive B1.Key.transitive };

    fn against(self, other: (A1, B1)) -> Ordering {
        self.0.against(other.0).then(self.1.against(other.1))
    }
}

// A record that is kept by a key.
pub trait Keyed: Copy {
    type K: Key;

    ghost key: { Self → Self.K };

    fn key(&self) -> Self::K
        ensures { result ≡ key self.now };
}
