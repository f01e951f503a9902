// The table itself.

// Records over lent places, since no memory is taken from the heap: the first `len` places are in use. Both fields are open, so
// that a table may be made over records that are there already, in order or not, and asks nothing; `Register` is a table whose
// keys ascend.
#[derive(Drop)]
pub struct Table<'a, R> {
    pub places: &'a mut [R],
    pub len: usize,
}

// Why a record was not put in.
#[derive(Clone, Copy, PartialEq, Eq, Debug)]
pub enum NotInserted {
    // a record under the same key is there
    Present,
    // there is no place left, or the table holds as many records as it may
    Full,
}
