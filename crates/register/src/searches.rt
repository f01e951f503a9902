// Searches among records whose keys ascend. Among others a search is safe, and gives some place.
ghost use Rattle.std.specs.Prelude.{◌≡◌, ◌↔◌, IsTrue, true, length};
ghost use Rattle.definitions.specs.Lists.{ascending};
ghost use Rattle.register.specs.Orders.{by_key, compare};
ghost use Rattle.register.specs.Tables.{Found, Starts, Getting, Within};

use crate::keys::{Key, Keyed};
use std::cmp::Ordering;

// How the key of a record stands to this one.
pub(crate) fn stands<R: Keyed>(row: &R, key: R::K) -> Ordering
    ensures { result ≡ compare R.K.Key.before (R.Keyed.key row.now) key }
{
    row.key().against(key)
}

// The place of the record under the key, or the place where one would be put in.
pub(crate) fn find_in<R: Keyed>(records: &[R], key: R::K) -> Result<usize, usize>
    ensures found { ascending (by_key R.K.Key.before R.Keyed.key) records.now ≡ true → Found R.K.Key.before R.Keyed.key records.now key result }
    ensures within { Within (length records.now) result }
{
    records.binary_search_by(|record| stands(record, key))
}

// The place from which on no key is before this one.
pub(crate) fn start_in<R: Keyed>(records: &[R], key: R::K) -> usize
    ensures { ascending (by_key R.K.Key.before R.Keyed.key) records.now ≡ true → Starts R.K.Key.before R.Keyed.key records.now key result }
{
    records.partition_point(|record| stands(record, key).is_lt())
}

// The record under the key, if there is one.
pub(crate) fn get_in<R: Keyed>(records: &[R], key: R::K) -> Option<R>
    ensures { ascending (by_key R.K.Key.before R.Keyed.key) records.now ≡ true → Getting R.Keyed.key records.now key result }
{
    let place = find_in(records, key).ok()?;
    records.get(place).copied()
}

// Whether the keys ascend.
pub(crate) fn ascend<R: Keyed>(records: &[R]) -> bool
    ensures { IsTrue result ↔ (ascending (by_key R.K.Key.before R.Keyed.key) records.now ≡ true) }
{
    records.is_sorted_by(|record, next| stands(record, next.key()).is_lt())
}
