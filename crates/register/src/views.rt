// Views of records whose keys ascend.
ghost use Rattle.std.specs.Prelude.{◌≡◌, true, MatchOption};
ghost use Rattle.definitions.specs.Lists.{ascending};
ghost use Rattle.register.specs.Orders.{by_key};

use crate::keys::Keyed;
use crate::searches::{ascend, get_in};

// Records whose keys ascend, for reading.
#[derive(Drop)]
pub struct View<'a, R: Keyed> {
    pub(crate) records: &'a [R],
    ghost ascends: { ascending (by_key R.K.Key.before R.Keyed.key) records.now ≡ true },
}

impl<'a, R: Keyed> View<'a, R> {
    ghost use Rattle.register.specs.Registers.{viewed};
    ghost use Rattle.register.specs.Tables.{Getting};

    // A view of the records; none where their keys do not ascend.
    pub fn of(records: &'a [R]) -> Option<View<'a, R>>
        ensures { MatchOption result (¬ (ascending (by_key R.K.Key.before R.Keyed.key) records.now ≡ true)) (λ v. viewed v ≡ records.now) }
    {
        if ascend(records) {
            Some(View { records })
        } else {
            None
        }
    }

    // The record under the key, if there is one.
    pub fn get(&self, key: R::K) -> Option<R>
        ensures { Getting R.Keyed.key (viewed self.now) key result }
    {
        get_in(self.records, key)
    }
}
