// Changes of rows. A row of a register is read at its place and replaced, so that its key is compared: a register hands out no
// row that could be changed in place, since its keys ascend. A table, which may be out of order, is written place by place.
ghost use Rattle.std.specs.Prelude.{◌≡◌};
ghost use Rattle.working_out.specs.Edits.{EditsAll, EditsRows, EditsUnder};

use register::keys::Keyed;
use register::registers::Register;
use register::tables::Table;

// Changes every row of a register.
pub(crate) fn edit_all<R: Keyed, F: Fn(R) -> R>(table: &mut Register<R>, edit: F)
    requires { F.IsAlwaysCallable edit }
    ensures { (edited : R → R) → ((x y : R) → F.post edit x y → y ≡ edited x) → EditsAll R.K.Key.before R.Keyed.key edited table.old table.new }
{
    for place in 0..table.count() {
        let Some(row) = table.at(place) else {
            return;
        };
        let _ = table.replace(place, edit(row));
    }
}

// Changes every row of a table, whatever the order of its keys. By place, since through the open field a proof follows the place
// that is written, but no part and no iterator.
pub(crate) fn edit_rows<R: Keyed, F: Fn(R) -> R>(table: &mut Table<R>, edit: F)
    requires { F.IsAlwaysCallable edit }
    ensures { (edited : R → R) → ((x y : R) → F.post edit x y → y ≡ edited x) → EditsRows edited table.old table.new }
{
    for place in 0..table.count() {
        table.places[place] = edit(table.places[place]);
    }
}

// Changes the row of a register under the key, if there is one.
#[tactic(auto, using(crate::proofs::Edited::under_none))]
pub(crate) fn edit_under<R: Keyed, F: Fn(R) -> R>(table: &mut Register<R>, key: R::K, edit: F)
    requires { F.IsAlwaysCallable edit }
    ensures { (edited : R → R) → ((x y : R) → F.post edit x y → y ≡ edited x) → EditsUnder R.K.Key.before R.Keyed.key key edited table.old table.new }
{
    let Ok(place) = table.find(key) else {
        return;
    };
    let Some(row) = table.at(place) else {
        return;
    };
    let _ = table.replace(place, edit(row));
}
