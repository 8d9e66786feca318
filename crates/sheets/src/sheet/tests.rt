// Every refusal at both sides of its edge, and the order of the checks.
use crate::sheet::Sheet;
use queries::Entry;
use std::process::Abort;
use terms::{Fault, Refusal};

fn takes(rt: &impl Abort, sheet: &mut Sheet, entry: Entry) {
    assert_eq!(rt; sheet.enter(entry), Ok(()));
}

fn declines(rt: &impl Abort, sheet: &mut Sheet, entry: Entry, refusal: Refusal, block: u8) {
    assert_eq!(rt; sheet.enter(entry), Err(Fault::on_sheet(refusal, block)));
}

fn test(column: u8, comparison: u8, constant: i64) -> Entry {
    Entry::Test {
        column,
        comparison,
        constant,
    }
}

fn link(column: u8, comparison: u8, parent: u8) -> Entry {
    Entry::Link {
        column,
        comparison,
        parent,
    }
}

fn nest(form: u8, operand: u8, comparison: u8, code: u8, inner: u8) -> Entry {
    Entry::Nest {
        form,
        table: 2,
        operand,
        comparison,
        code,
        inner,
    }
}

// A nested test that has no parts, so that none of these numbers is looked at.
fn exists() -> Entry {
    nest(3, 99, 99, 99, 99)
}

fn select(column: u8) -> Entry {
    Entry::Select { column }
}

fn opened() -> Sheet {
    Sheet::enter_all(&[Entry::Open { table: 1 }])
}

fn nested() -> Sheet {
    Sheet::enter_all(&[Entry::Open { table: 1 }, exists()])
}

#[test]
fn a_fresh_sheet_takes_open_alone(rt: HostRuntime) {
    let mut sheet = Sheet::fresh();
    declines(&rt, &mut sheet, test(1, 1, 0), Refusal::OutOfTurn, 0);
    declines(&rt, &mut sheet, link(1, 1, 1), Refusal::OutOfTurn, 0);
    declines(&rt, &mut sheet, exists(), Refusal::OutOfTurn, 0);
    declines(&rt, &mut sheet, select(1), Refusal::OutOfTurn, 0);
    declines(&rt, &mut sheet, Entry::Finish, Refusal::OutOfTurn, 0);
    takes(&rt, &mut sheet, Entry::Open { table: 1 });
    declines(
        &rt,
        &mut sheet,
        Entry::Open { table: 1 },
        Refusal::OutOfTurn,
        0,
    );
    declines(&rt, &mut sheet, link(1, 1, 1), Refusal::OutOfTurn, 0);
    takes(&rt, &mut sheet, exists());
    takes(&rt, &mut sheet, link(1, 1, 1));
}

#[test]
fn nothing_after_finish(rt: HostRuntime) {
    let mut sheet = nested();
    takes(&rt, &mut sheet, select(1));
    takes(&rt, &mut sheet, Entry::Finish);
    assert!(rt; sheet.is_finished());
    declines(
        &rt,
        &mut sheet,
        Entry::Open { table: 1 },
        Refusal::OutOfTurn,
        1,
    );
    declines(&rt, &mut sheet, test(1, 1, 0), Refusal::OutOfTurn, 1);
    declines(&rt, &mut sheet, link(1, 1, 1), Refusal::OutOfTurn, 1);
    declines(&rt, &mut sheet, exists(), Refusal::OutOfTurn, 1);
    declines(&rt, &mut sheet, select(1), Refusal::OutOfTurn, 1);
    declines(&rt, &mut sheet, Entry::Finish, Refusal::OutOfTurn, 1);
}

#[test]
fn tables_and_columns_in_range(rt: HostRuntime) {
    let mut sheet = Sheet::fresh();
    declines(
        &rt,
        &mut sheet,
        Entry::Open { table: 0 },
        Refusal::OutOfRange,
        0,
    );
    declines(
        &rt,
        &mut sheet,
        Entry::Open { table: 17 },
        Refusal::OutOfRange,
        0,
    );
    takes(&rt, &mut sheet, Entry::Open { table: 16 });
    declines(&rt, &mut sheet, select(0), Refusal::OutOfRange, 0);
    declines(&rt, &mut sheet, select(7), Refusal::OutOfRange, 0);
    takes(&rt, &mut sheet, select(6));
    declines(&rt, &mut sheet, test(0, 1, 0), Refusal::OutOfRange, 0);
    declines(&rt, &mut sheet, test(7, 1, 0), Refusal::OutOfRange, 0);
    declines(&rt, &mut sheet, test(1, 0, 0), Refusal::OutOfRange, 0);
    declines(&rt, &mut sheet, test(1, 7, 0), Refusal::OutOfRange, 0);
    takes(&rt, &mut sheet, test(6, 6, 0));
}

#[test]
fn constants_in_range(rt: HostRuntime) {
    let mut sheet = opened();
    declines(
        &rt,
        &mut sheet,
        test(1, 1, -2_147_483_649),
        Refusal::OutOfRange,
        0,
    );
    declines(
        &rt,
        &mut sheet,
        test(1, 1, 2_147_483_648),
        Refusal::OutOfRange,
        0,
    );
    declines(
        &rt,
        &mut sheet,
        test(1, 1, i64::MIN),
        Refusal::OutOfRange,
        0,
    );
    takes(&rt, &mut sheet, test(1, 1, -2_147_483_648));
    takes(&rt, &mut sheet, test(1, 1, 2_147_483_647));
}

#[test]
fn links_in_range(rt: HostRuntime) {
    let mut sheet = nested();
    declines(&rt, &mut sheet, link(0, 1, 1), Refusal::OutOfRange, 1);
    declines(&rt, &mut sheet, link(7, 1, 1), Refusal::OutOfRange, 1);
    declines(&rt, &mut sheet, link(1, 7, 1), Refusal::OutOfRange, 1);
    declines(&rt, &mut sheet, link(1, 1, 0), Refusal::OutOfRange, 1);
    declines(&rt, &mut sheet, link(1, 1, 7), Refusal::OutOfRange, 1);
    takes(&rt, &mut sheet, link(6, 6, 6));
}

#[test]
fn nests_in_range(rt: HostRuntime) {
    let mut sheet = opened();
    declines(&rt, &mut sheet, nest(0, 1, 1, 1, 1), Refusal::OutOfRange, 0);
    declines(&rt, &mut sheet, nest(7, 1, 1, 1, 1), Refusal::OutOfRange, 0);
    declines(&rt, &mut sheet, nest(1, 7, 1, 1, 1), Refusal::OutOfRange, 0);
    declines(&rt, &mut sheet, nest(1, 1, 7, 1, 1), Refusal::OutOfRange, 0);
    declines(&rt, &mut sheet, nest(1, 1, 1, 6, 1), Refusal::OutOfRange, 0);
    declines(&rt, &mut sheet, nest(1, 1, 1, 5, 7), Refusal::OutOfRange, 0);
    declines(&rt, &mut sheet, nest(2, 0, 1, 1, 1), Refusal::OutOfRange, 0);
    declines(&rt, &mut sheet, nest(2, 1, 1, 1, 0), Refusal::OutOfRange, 0);
    declines(&rt, &mut sheet, nest(5, 1, 0, 1, 1), Refusal::OutOfRange, 0);
    declines(&rt, &mut sheet, nest(6, 1, 3, 1, 7), Refusal::OutOfRange, 0);
    assert_eq!(rt;
        sheet.nest(3, 17, 1, 1, 1, 1),
        Err(Fault::on_sheet(Refusal::OutOfRange, 0))
    );
}

#[test]
fn unused_parts_are_not_looked_at(rt: HostRuntime) {
    takes(&rt, &mut opened(), nest(1, 6, 6, 0, 99));
    takes(&rt, &mut opened(), nest(1, 1, 1, 5, 6));
    takes(&rt, &mut opened(), nest(2, 1, 99, 99, 6));
    takes(&rt, &mut opened(), nest(3, 0, 99, 99, 0));
    takes(&rt, &mut opened(), nest(4, 99, 0, 99, 99));
    takes(&rt, &mut opened(), nest(5, 1, 1, 99, 1));
    takes(&rt, &mut opened(), nest(6, 1, 6, 99, 1));
}

#[test]
fn all_by_equality(rt: HostRuntime) {
    declines(
        &rt,
        &mut opened(),
        nest(6, 1, 1, 0, 1),
        Refusal::AllByEquality,
        0,
    );
    declines(
        &rt,
        &mut opened(),
        nest(6, 1, 2, 0, 1),
        Refusal::AllByEquality,
        0,
    );
    takes(&rt, &mut opened(), nest(6, 1, 3, 0, 1));
    takes(&rt, &mut opened(), nest(5, 1, 1, 0, 1));
}

#[test]
fn a_fourth_block_and_a_fifth(rt: HostRuntime) {
    let mut sheet = nested();
    takes(&rt, &mut sheet, exists());
    takes(&rt, &mut sheet, exists());
    declines(&rt, &mut sheet, exists(), Refusal::OverLimit, 3);
    // the checks before the limit come first
    declines(&rt, &mut sheet, nest(7, 1, 1, 1, 1), Refusal::OutOfRange, 3);
    declines(
        &rt,
        &mut sheet,
        nest(6, 1, 1, 0, 1),
        Refusal::AllByEquality,
        3,
    );
    declines(
        &rt,
        &mut sheet,
        Entry::Open { table: 0 },
        Refusal::OutOfTurn,
        3,
    );
}

#[test]
fn six_outputs_from_any_block(rt: HostRuntime) {
    let mut sheet = nested();
    for _ in 0..6u8 {
        takes(&rt, &mut sheet, select(1));
    }
    declines(&rt, &mut sheet, select(1), Refusal::OverLimit, 1);
    declines(&rt, &mut sheet, select(7), Refusal::OutOfRange, 1);
    takes(&rt, &mut sheet, Entry::Finish);
}

#[test]
fn six_tests_and_links_of_which_three_links(rt: HostRuntime) {
    let mut sheet = nested();
    for _ in 0..3u8 {
        takes(&rt, &mut sheet, link(1, 1, 1));
    }
    declines(&rt, &mut sheet, link(1, 1, 1), Refusal::OverLimit, 1);
    for _ in 0..3u8 {
        takes(&rt, &mut sheet, test(1, 1, 0));
    }
    declines(&rt, &mut sheet, test(1, 1, 0), Refusal::OverLimit, 1);
    // each block has its own limit
    takes(&rt, &mut sheet, exists());
    for _ in 0..6u8 {
        takes(&rt, &mut sheet, test(1, 1, 0));
    }
    declines(&rt, &mut sheet, link(1, 1, 1), Refusal::OverLimit, 2);
}

#[test]
fn finish_wants_a_select(rt: HostRuntime) {
    let mut sheet = nested();
    declines(&rt, &mut sheet, Entry::Finish, Refusal::NothingSelected, 1);
    assert!(rt; !sheet.is_finished());
    takes(&rt, &mut sheet, select(1));
    takes(&rt, &mut sheet, Entry::Finish);
}

#[test]
fn the_calls_by_name(rt: HostRuntime) {
    let mut sheet = Sheet::fresh();
    assert_eq!(rt; sheet.open(1), Ok(()));
    assert_eq!(rt; sheet.test(2, 3, 9), Ok(()));
    assert_eq!(rt; sheet.select(1), Ok(()));
    assert_eq!(rt; sheet.nest(1, 2, 2, 1, 1, 2), Ok(()));
    assert_eq!(rt; sheet.link(1, 1, 1), Ok(()));
    assert_eq!(rt; sheet.finish(), Ok(()));
    let query = sheet.query().expect(&rt, "a query");
    assert_eq!(rt; query.table, 1);
    assert_eq!(rt; query.tests.len(), 1);
    assert_eq!(rt; query.outputs.as_slice(), &[1u8][..]);
    let block = query.inner.last().expect(&rt, "an inner block");
    assert_eq!(rt; block.table, 2);
    assert_eq!(rt; block.links.len(), 1);
}
