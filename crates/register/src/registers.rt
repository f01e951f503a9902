// A register: a table that holds no key twice and keeps keys ascending.
ghost use Rattle.std.specs.Prelude.{◌≡◌, ◌+◌, ◌≤◌, [], length};
ghost use Rattle.std.specs.List.{slice_get};
ghost use Rattle.register.specs.Tables.{room as table_room, Ordered};

use crate::keys::Keyed;
use crate::searches::ascend;
use crate::tables::{NotInserted, Table};
use crate::views::View;
use std::mem;

// A table whose records lie within its places and whose keys ascend, so that what `Table` promises where there is order is
// promised of every register. That an entry or a removal leaves as many places as there were is a fact of two states, and stays
// in the clauses.
#[derive(Drop)]
pub struct Register<'a, R: Keyed> {
    table: Table<'a, R>,
    ghost within: { table.len ≤ table_room table },
    ghost ascends: { Ordered R.K.Key.before R.Keyed.key table },
}

impl<'a, R: Keyed> Register<'a, R> {
    ghost use Rattle.register.specs.Registers.{rows, room, viewed, Taking, Found, Starts, Getting, Within, Inserting, Replacing, Removing};

    // An empty register over the places.
    pub fn open(places: &'a mut [R]) -> Register<'a, R>
        ensures empty { rows result ≡ [] }
        ensures all_places { room result ≡ length places.old }
    {
        Register {
            table: Table::open(places),
        }
    }

    // The records of a table as a register, where their keys ascend: the table is left without places until they are given
    // back. Where the keys do not ascend, nothing changes.
    pub fn take(table: &mut Table<'a, R>) -> Option<Register<'a, R>>
        ensures { Taking R.K.Key.before R.Keyed.key table.old table.new result }
    {
        let len = table.count();
        if !ascend(table.all()) {
            return None;
        }
        let places = mem::take(&mut table.places);
        Some(Register {
            table: Table { places, len },
        })
    }

    // Puts the register's records, with their places, into a table, such as the one from which they were taken; what that held
    // before is no longer in it.
    pub fn give_back(self, table: &mut Table<'a, R>)
        ensures { table.new ≡ self.entry.table }
    {
        *table = self.table;
    }

    // The records, for reading.
    pub fn view(&self) -> View<'_, R>
        ensures { viewed result ≡ rows self.now }
    {
        View {
            records: self.table.all(),
        }
    }

    // How many records there are.
    pub fn count(&self) -> usize
        ensures is { result ≡ length (rows self.now) }
        ensures bound { result ≤ room self.now }
    {
        self.table.count()
    }

    // The records, in order.
    pub fn all(&self) -> &[R]
        ensures { result.now ≡ rows self.now }
    {
        self.table.all()
    }

    // The record at a place, counted from 0; none past the last.
    pub fn at(&self, place: usize) -> Option<R>
        ensures { result ≡ slice_get (rows self.now) place }
    {
        self.table.at(place)
    }

    // The place of the record under the key, or the place where one would be put in.
    pub fn find(&self, key: R::K) -> Result<usize, usize>
        ensures found { Found R.K.Key.before R.Keyed.key (rows self.now) key result }
        ensures within { Within (length (rows self.now)) result }
    {
        self.table.find(key)
    }

    // The place from which on no key is before this one.
    pub fn start_of(&self, key: R::K) -> usize
        ensures { Starts R.K.Key.before R.Keyed.key (rows self.now) key result }
    {
        self.table.start_of(key)
    }

    // The record under the key, if there is one.
    pub fn get(&self, key: R::K) -> Option<R>
        ensures { Getting R.Keyed.key (rows self.now) key result }
    {
        self.table.get(key)
    }

    // Puts a record in its place among the others, unless one under its key is there or the register is full:
    // it has no place left, or holds as many records as it may.
    pub fn insert(&mut self, record: R, most: usize) -> Result<(), NotInserted>
        ensures inserts { Inserting R.K.Key.before R.Keyed.key most «record» self.old self.new result }
        ensures same_room { room self.new ≡ room self.old }
    {
        self.table.insert(record, most)
    }

    // Puts a record in the place of one under the same key; false where there is none at the place, or one under another key.
    pub fn replace(&mut self, place: usize, record: R) -> bool
        ensures { Replacing R.K.Key.before R.Keyed.key place «record» self.old self.new result }
    {
        self.table.replace(place, record)
    }

    // Removes the records from one place to before another; false where there are no such places.
    pub fn remove_run(&mut self, from: usize, to: usize) -> bool
        ensures { Removing R.K.Key.before R.Keyed.key from to self.old self.new result }
    {
        self.table.remove_run(from, to)
    }

    // Removes the record at a place; false where there is none.
    pub fn remove_one(&mut self, place: usize) -> bool
        ensures { Removing R.K.Key.before R.Keyed.key place (place + 1) self.old self.new result }
    {
        self.table.remove_one(place)
    }

    // Removes all records.
    pub fn clear(&mut self)
        ensures empty { rows self.new ≡ [] }
        ensures same_room { room self.new ≡ room self.old }
    {
        self.table.clear();
    }
}
