// What can be done with a table. A call on a table that is not ordered is safe; that the answer of a search is right, and that
// the order is kept, is promised where there is an order.
ghost use Rattle.std.specs.Prelude.{◌≡◌, ◌+◌, ◌≤◌, [], length};
ghost use Rattle.std.specs.List.{slice_get};
ghost use Rattle.register.specs.Tables.{rows, room, Ordered, Found, Starts, Getting, Within, Kept, Inserting, Replacing, Removing};

use crate::keys::Keyed;
use crate::moves::{insert_at, remove_between};
use crate::searches::{find_in, get_in, stands, start_in};
use crate::tables::{NotInserted, Table};

impl<'a, R: Keyed> Table<'a, R> {
    // An empty table over the places.
    pub fn open(places: &'a mut [R]) -> Table<'a, R>
        ensures empty { rows result ≡ [] }
        ensures fits { result.len ≤ room result }
        ensures all_places { room result ≡ length places.old }
    {
        Table { places, len: 0 }
    }

    // How many records there are.
    pub fn count(&self) -> usize
        ensures is { result ≡ length (rows self.now) }
        ensures bound { result ≤ room self.now }
    {
        self.len.min(self.places.len())
    }

    // The records, in order.
    pub fn all(&self) -> &[R]
        ensures { result.now ≡ rows self.now }
    {
        &self.places[..self.count()]
    }

    // The record at a place, counted from 0; none past the last.
    pub fn at(&self, place: usize) -> Option<R>
        ensures { result ≡ slice_get (rows self.now) place }
    {
        self.all().get(place).copied()
    }

    // The place of the record under the key, or the place where one would be put in.
    pub fn find(&self, key: R::K) -> Result<usize, usize>
        ensures found { Ordered R.K.Key.before R.Keyed.key self.now → Found R.K.Key.before R.Keyed.key (rows self.now) key result }
        ensures within { Within (length (rows self.now)) result }
    {
        find_in(self.all(), key)
    }

    // The place from which on no key is before this one.
    pub fn start_of(&self, key: R::K) -> usize
        ensures { Ordered R.K.Key.before R.Keyed.key self.now → Starts R.K.Key.before R.Keyed.key (rows self.now) key result }
    {
        start_in(self.all(), key)
    }

    // The record under the key, if there is one.
    pub fn get(&self, key: R::K) -> Option<R>
        ensures { Ordered R.K.Key.before R.Keyed.key self.now → Getting R.Keyed.key (rows self.now) key result }
    {
        get_in(self.all(), key)
    }

    // Puts a record in its place among the others, unless one under its key is there or the table is full:
    // it has no place left, or holds as many records as it may.
    pub fn insert(&mut self, record: R, most: usize) -> Result<(), NotInserted>
        ensures inserts { Ordered R.K.Key.before R.Keyed.key self.old → Inserting R.K.Key.before R.Keyed.key most «record» self.old self.new result }
        ensures kept { Kept R.K.Key.before R.Keyed.key self.old self.new }
    {
        let Err(place) = self.find(record.key()) else {
            return Err(NotInserted::Present);
        };
        let count = self.count();
        if count >= self.places.len().min(most) {
            return Err(NotInserted::Full);
        }
        insert_at(self.places, place, count, record);
        self.len = count + 1;
        Ok(())
    }

    // Puts a record in the place of one under the same key; false where there is none at the place, or one under another key.
    pub fn replace(&mut self, place: usize, record: R) -> bool
        ensures { Replacing R.K.Key.before R.Keyed.key place «record» self.old self.new result }
    {
        let Some(old) = self.at(place) else {
            return false;
        };
        if stands(&old, record.key()).is_ne() {
            return false;
        }
        self.places[place] = record;
        true
    }

    // Removes the records from one place to before another; false where there are no such places.
    pub fn remove_run(&mut self, from: usize, to: usize) -> bool
        ensures { Removing R.K.Key.before R.Keyed.key from to self.old self.new result }
    {
        let count = self.count();
        if to < from || count < to {
            return false;
        }
        remove_between(self.places, from, to, count);
        self.len = count - (to - from);
        true
    }

    // Removes the record at a place; false where there is none.
    pub fn remove_one(&mut self, place: usize) -> bool
        ensures { Removing R.K.Key.before R.Keyed.key place (place + 1) self.old self.new result }
    {
        if place >= self.count() {
            return false;
        }
        self.remove_run(place, place + 1)
    }

    // Removes all records.
    pub fn clear(&mut self)
        ensures empty { rows self.new ≡ [] }
        ensures kept { Kept R.K.Key.before R.Keyed.key self.old self.new }
    {
        self.len = 0;
    }
}
