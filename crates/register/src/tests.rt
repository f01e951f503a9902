use crate::keys::*;
use crate::registers::Register;
use crate::tables::*;
use crate::views::View;

#[derive(Clone, Copy, Drop, PartialEq, Debug)]
struct Mark {
    number: u8,
    worth: u8,
}

impl Keyed for Mark {
    type K = u8;

    ghost key = { λ m. m.number };

    fn key(&self) -> u8 {
        self.number
    }
}

#[derive(Clone, Copy, Drop, PartialEq, Debug)]
struct Spot {
    row: u16,
    column: u8,
}

impl Keyed for Spot {
    type K = (u16, u8);

    ghost key = { λ s. (s.row, s.column) };

    fn key(&self) -> (u16, u8) {
        (self.row, self.column)
    }
}

fn numbered(number: u8) -> Mark {
    Mark { number, worth: 0 }
}

fn spot_at(row: u16, column: u8) -> Spot {
    Spot { row, column }
}

// Whether the table holds the marks of these numbers, in this order.
fn holds(table: &Table<'_, Mark>, numbers: &[u8]) -> bool {
    let marks = table.all().iter().copied();
    marks.eq(numbers.iter().map(|number| numbered(*number)))
}

#[test]
fn ascending_marks_stand_in_order(rt: HostRuntime) {
    let mut places = [numbered(0); 3];
    let mut table = Table::open(&mut places);
    assert_eq!(rt; table.insert(numbered(1), 99), Ok(()));
    assert_eq!(rt; table.insert(numbered(2), 99), Ok(()));
    assert_eq!(rt; table.insert(numbered(3), 99), Ok(()));
    assert!(rt; holds(&table, &[1, 2, 3]));
    assert_eq!(rt; table.at(3), None);
}

#[test]
fn marks_in_any_order_are_sorted(rt: HostRuntime) {
    let mut places = [numbered(0); 6];
    let mut table = Table::open(&mut places);
    for number in [5, 1, 4, 2, 3] {
        assert_eq!(rt; table.insert(numbered(number), 99), Ok(()));
    }
    assert!(rt; holds(&table, &[1, 2, 3, 4, 5]));
    assert_eq!(rt;
        table.insert(
            Mark {
                number: 4,
                worth: 9,
            },
            99,
        ),
        Err(NotInserted::Present)
    );
    assert!(rt; holds(&table, &[1, 2, 3, 4, 5]));
}

#[test]
fn pairs_go_by_the_first_part(rt: HostRuntime) {
    let mut places = [spot_at(0, 0); 4];
    let mut table = Table::open(&mut places);
    assert_eq!(rt; table.insert(spot_at(2, 1), 99), Ok(()));
    assert_eq!(rt; table.insert(spot_at(1, 9), 99), Ok(()));
    assert_eq!(rt; table.insert(spot_at(1, 3), 99), Ok(()));
    assert_eq!(rt; table.insert(spot_at(1, 9), 99), Err(NotInserted::Present));
    assert_eq!(rt; table.at(0), Some(spot_at(1, 3)));
    assert_eq!(rt; table.at(1), Some(spot_at(1, 9)));
    assert_eq!(rt; table.at(2), Some(spot_at(2, 1)));
    assert_eq!(rt; table.find((1, 9)), Ok(1));
    assert_eq!(rt; table.find((1, 4)), Err(1));
}

#[test]
fn a_full_table_takes_no_more(rt: HostRuntime) {
    let mut places = [numbered(0); 1];
    let mut table = Table::open(&mut places);
    assert_eq!(rt; table.insert(numbered(7), 99), Ok(()));
    assert_eq!(rt; table.insert(numbered(8), 99), Err(NotInserted::Full));
    assert_eq!(rt; table.insert(numbered(7), 99), Err(NotInserted::Present));
    assert!(rt; holds(&table, &[7]));
    let mut none: [Mark; 0] = [];
    let mut empty = Table::open(&mut none);
    assert_eq!(rt; empty.insert(numbered(1), 99), Err(NotInserted::Full));
    assert_eq!(rt; empty.count(), 0);
}

#[test]
fn a_run_is_removed(rt: HostRuntime) {
    let mut places = [numbered(0); 5];
    let mut table = Table::open(&mut places);
    for number in [1, 2, 3, 4, 5] {
        assert_eq!(rt; table.insert(numbered(number), 99), Ok(()));
    }
    assert!(rt; !table.remove_run(1, 6));
    assert!(rt; !table.remove_run(3, 2));
    assert!(rt; table.remove_run(1, 4));
    assert!(rt; holds(&table, &[1, 5]));
    assert!(rt; table.remove_run(2, 2));
    assert_eq!(rt; table.find(5), Ok(1));
    assert_eq!(rt; table.find(3), Err(1));
    table.clear();
    assert!(rt; holds(&table, &[]));
    assert_eq!(rt; table.insert(numbered(6), 99), Ok(()));
}

#[test]
fn only_the_same_key_is_replaced(rt: HostRuntime) {
    let mut places = [numbered(0); 2];
    let mut table = Table::open(&mut places);
    assert_eq!(rt; table.insert(numbered(3), 99), Ok(()));
    assert!(rt; !table.replace(0, numbered(4)));
    assert!(rt; !table.replace(1, numbered(3)));
    assert!(rt;
        table.replace(
            0,
            Mark {
                number: 3,
                worth: 8,
            },
        )
    );
    assert_eq!(rt;
        table.at(0),
        Some(Mark {
            number: 3,
            worth: 8,
        })
    );
}

#[test]
fn a_table_over_marks_that_are_there(rt: HostRuntime) {
    let mut places = [numbered(1), numbered(2), numbered(5), numbered(0)];
    let mut table = Table {
        places: &mut places,
        len: 3,
    };
    assert_eq!(rt; table.count(), 3);
    assert_eq!(rt; table.find(2), Ok(1));
    assert_eq!(rt; table.find(3), Err(2));
    assert_eq!(rt; table.start_of(2), 1);
    assert_eq!(rt; table.get(5), Some(numbered(5)));
    assert_eq!(rt; table.insert(numbered(3), 99), Ok(()));
    assert!(rt; holds(&table, &[1, 2, 3, 5]));
}

#[test]
fn a_table_out_of_order_is_safe(rt: HostRuntime) {
    let mut places = [numbered(5), numbered(1)];
    let mut table = Table {
        places: &mut places,
        len: 9,
    };
    assert!(rt; Register::take(&mut table).is_none());
    assert!(rt; View::of(table.all()).is_none());
    assert!(rt; holds(&table, &[5, 1]));
    assert_eq!(rt; table.at(2), None);
    assert!(rt; !table.remove_run(0, 3));
    assert!(rt; table.remove_run(0, 1));
    assert!(rt; holds(&table, &[1]));
}

#[test]
fn a_register_keeps_order(rt: HostRuntime) {
    let mut places = [numbered(0); 3];
    let mut register = Register::open(&mut places);
    assert_eq!(rt; register.insert(numbered(7), 99), Ok(()));
    assert_eq!(rt; register.insert(numbered(3), 99), Ok(()));
    assert_eq!(rt; register.insert(numbered(3), 99), Err(NotInserted::Present));
    assert_eq!(rt; register.insert(numbered(5), 2), Err(NotInserted::Full));
    assert_eq!(rt; register.at(0), Some(numbered(3)));
    assert_eq!(rt; register.find(7), Ok(1));
    assert_eq!(rt; register.start_of(4), 1);
    assert_eq!(rt; register.view().get(7), Some(numbered(7)));
    assert_eq!(rt; register.view().get(5), None);
    assert!(rt; !register.replace(0, numbered(7)));
    assert!(rt; register.replace(1, numbered(7)));
    assert!(rt; register.remove_one(0));
    assert_eq!(rt; register.count(), 1);
    assert!(rt; !register.remove_run(0, 2));
    register.clear();
    assert_eq!(rt; register.get(7), None);
}

#[test]
fn a_register_is_given_back(rt: HostRuntime) {
    let mut places = [numbered(1), numbered(4), numbered(0)];
    let mut table = Table {
        places: &mut places,
        len: 2,
    };
    if let Some(mut register) = Register::take(&mut table) {
        assert_eq!(rt; register.insert(numbered(2), 99), Ok(()));
        register.give_back(&mut table);
    }
    assert!(rt; holds(&table, &[1, 2, 4]));
}
