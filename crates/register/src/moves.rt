// Moving the elements of a slice whose first `count` places are in use.
ghost use Rattle.std.specs.Prelude.{◌≡◌, ◌+◌, ◌-◌, ◌<◌, ◌≤◌, ◌++◌, length, take, drop};
ghost use Rattle.std.specs.List.{insert};

// Puts an item in at a place; those from there on move up by one. At the end none moves.
pub(crate) fn insert_at<T: Copy>(places: &mut [T], place: usize, count: usize, item: T)
    requires within { place ≤ count }
    requires room { count < length places.old }
    ensures { take (count + 1) places.new ≡ insert (take count places.old) place item }
{
    places[count] = item;
    let part = &mut places[place..count + 1];
    part.rotate_right(1);
}

// Takes out the items from one place to before another; those after them move down.
pub(crate) fn remove_between<T: Copy>(places: &mut [T], from: usize, to: usize, count: usize)
    requires run { from ≤ to }
    requires within { to ≤ count }
    requires room { count ≤ length places.old }
    ensures { take (count - (to - from)) places.new ≡ take from (take count places.old) ++ drop to (take count places.old) }
{
    let part = &mut places[from..count];
    part.rotate_left(to - from);
}
