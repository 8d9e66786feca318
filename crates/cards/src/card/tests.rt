// Loads at both sides of every refusal's edge, and what is read afterwards.
use crate::Card;
use sources::{Shape, Source};
use std::process::Abort;
use terms::{Cell, Fault, Refusal};

// Table 2 with one column and the rows -3 and absent.
const SAMPLE: [u8; 16] = [
    0x0c, 0, 1, 0, 2, 1, 0, 0xfd, 0xff, 0xff, 0xff, 1, 0, 0, 0, 0,
];

// Table 2 twice, with one row each: 5, then 6.
const TWICE: [u8; 22] = [
    7, 0, 1, 0, 2, 1, 0, 5, 0, 0, 0, 7, 0, 1, 0, 2, 1, 0, 6, 0, 0, 0,
];

// Table 16 with two columns: an unreadable row with other bytes in it, and the row (absent, 1).
const UNREADABLE: [u8; 24] = [
    20, 0, 1, 0, 16, 2, 0x83, 1, 2, 3, 4, 5, 6, 7, 8, 1, 0, 0, 0, 0, 1, 0, 0, 0,
];

fn loads(rt: &impl Abort, image: &[u8]) {
    assert_eq!(rt; Card::empty().load(image), Ok(()));
}

fn refuses(rt: &impl Abort, image: &[u8], refusal: Refusal, place: usize) {
    assert_eq!(rt;
        Card::empty().load(image),
        Err(Fault::at_place(refusal, place))
    );
}

// The first two cells of a row; the other four are absent.
fn fetches(rt: &impl Abort, card: &mut Card<'_>, table: u8, row: usize, first: Cell, second: Cell) {
    let mut place = [Some(7); 6];
    assert_eq!(rt; card.fetch(table, row, &mut place), Ok(()));
    assert_eq!(rt; place, [first, second, None, None, None, None]);
}

fn fetch_fails(rt: &impl Abort, card: &mut Card<'_>, table: u8, row: usize, refusal: Refusal) {
    let mut place = [Some(7); 6];
    assert_eq!(rt;
        card.fetch(table, row, &mut place),
        Err(Fault::of_row(refusal, table, row))
    );
    assert_eq!(rt; place, [None; 6]);
}

#[test]
fn an_image_too_long(rt: HostRuntime) {
    let mut image = [0; 65_537];
    image[..3].copy_from_slice(&[0xfc, 0xff, 2]);
    loads(&rt, &image[0..65_536]);
    refuses(&rt, &image, Refusal::ImageTooLong, 0);
}

#[test]
fn records_and_kinds(rt: HostRuntime) {
    refuses(&rt, &[1, 0, 2, 0], Refusal::RecordPastEnd, 0);
    loads(&rt, &[1, 0, 2, 0, 9]);
    refuses(&rt, &[0, 1, 2, 0, 9], Refusal::RecordPastEnd, 0);
    refuses(&rt, &[0, 0, 0, 0], Refusal::UnknownKind, 0);
    refuses(&rt, &[0, 0, 3, 0], Refusal::UnknownKind, 0);
    refuses(&rt, &[0, 0, 1, 1], Refusal::UnknownKind, 0);
    refuses(&rt, &[0, 0, 2, 1], Refusal::UnknownKind, 0);
    loads(&rt, &[0, 0, 2, 0]);
    loads(&rt, &[]);
}

#[test]
fn table_heads(rt: HostRuntime) {
    refuses(&rt, &[0, 0, 1, 0], Refusal::BadTableHead, 0);
    refuses(&rt, &[1, 0, 1, 0, 1], Refusal::BadTableHead, 0);
    loads(&rt, &[2, 0, 1, 0, 1, 1]);
    refuses(&rt, &[2, 0, 1, 0, 0, 1], Refusal::BadTableHead, 0);
    refuses(&rt, &[2, 0, 1, 0, 17, 1], Refusal::BadTableHead, 0);
    loads(&rt, &[2, 0, 1, 0, 16, 6]);
    refuses(&rt, &[2, 0, 1, 0, 1, 0], Refusal::BadTableHead, 0);
    refuses(&rt, &[2, 0, 1, 0, 1, 7], Refusal::BadTableHead, 0);
}

#[test]
fn row_counts(rt: HostRuntime) {
    loads(&rt, &[7, 0, 1, 0, 1, 1, 0, 0, 0, 0, 0]);
    refuses(
        &rt,
        &[6, 0, 1, 0, 1, 1, 0, 0, 0, 0],
        Refusal::BadRowCount,
        0,
    );
    refuses(
        &rt,
        &[8, 0, 1, 0, 1, 1, 0, 0, 0, 0, 0, 0],
        Refusal::BadRowCount,
        0,
    );
    let mut image = [0; 5_131];
    // 1,024 rows of five bytes and the two of the head, then one row more
    image[..6].copy_from_slice(&[0x02, 0x14, 1, 0, 1, 1]);
    loads(&rt, &image[0..5_126]);
    image[0] = 0x07;
    refuses(&rt, &image, Refusal::BadRowCount, 0);
}

#[test]
fn marks_and_absent_bytes(rt: HostRuntime) {
    loads(&rt, &[7, 0, 1, 0, 1, 1, 1, 0, 0, 0, 0]);
    refuses(&rt, &[7, 0, 1, 0, 1, 1, 2, 0, 0, 0, 0], Refusal::BadRow, 0);
    refuses(
        &rt,
        &[7, 0, 1, 0, 1, 1, 0x40, 0, 0, 0, 0],
        Refusal::BadRow,
        0,
    );
    refuses(&rt, &[7, 0, 1, 0, 1, 1, 1, 0, 0, 0, 1], Refusal::BadRow, 0);
    loads(&rt, &[7, 0, 1, 0, 1, 1, 0x80, 0, 0, 0, 0]);
    loads(&rt, &[7, 0, 1, 0, 1, 1, 0xff, 1, 2, 3, 4]);
}

#[test]
fn the_first_of_several_faults(rt: HostRuntime) {
    // the first record at fault decides, and its place is told
    refuses(
        &rt,
        &[1, 0, 2, 0, 9, 0, 0, 3, 0, 9, 0, 7, 0],
        Refusal::UnknownKind,
        5,
    );
    // within a record: past the end before the kind, the head before the rows, their count before the rows' own faults
    refuses(&rt, &[9, 0, 7, 0], Refusal::RecordPastEnd, 0);
    refuses(&rt, &[3, 0, 1, 0, 0, 1, 0x40], Refusal::BadTableHead, 0);
    refuses(
        &rt,
        &[8, 0, 1, 0, 1, 1, 0x40, 0, 0, 0, 0, 0],
        Refusal::BadRowCount,
        0,
    );
}

#[test]
fn a_stub_is_ignored(rt: HostRuntime) {
    let image = [0, 0, 2, 0, 0xff, 0xff, 0xff, 0xff];
    loads(&rt, &image[0..4]);
    loads(&rt, &image[0..5]);
    loads(&rt, &image[0..6]);
    loads(&rt, &image[0..7]);
    refuses(&rt, &image, Refusal::RecordPastEnd, 4);
}

#[test]
fn the_sample_is_read(rt: HostRuntime) {
    let mut card = Card::empty();
    assert_eq!(rt; card.load(&SAMPLE), Ok(()));
    assert_eq!(rt;
        card.shape(2),
        Some(Shape {
            columns: 1,
            rows: 2,
        })
    );
    assert_eq!(rt; card.shape(1), None);
    assert_eq!(rt; card.shape(0), None);
    assert_eq!(rt; card.shape(17), None);
    assert_eq!(rt; card.shape(255), None);
    fetches(&rt, &mut card, 2, 0, Some(-3), None);
    fetches(&rt, &mut card, 2, 1, None, None);
    assert_eq!(rt; card.meter(), 2);
}

#[test]
fn rows_that_cannot_be_fetched(rt: HostRuntime) {
    let mut card = Card::empty();
    assert_eq!(rt; card.load(&UNREADABLE), Ok(()));
    fetch_fails(&rt, &mut card, 16, 0, Refusal::RowUnreadable);
    assert_eq!(rt; card.meter(), 1);
    fetches(&rt, &mut card, 16, 1, None, Some(1));
    assert_eq!(rt; card.meter(), 2);
    fetch_fails(&rt, &mut card, 16, 2, Refusal::NoSuchRow);
    fetch_fails(&rt, &mut card, 1, 0, Refusal::NoSuchRow);
    fetch_fails(&rt, &mut card, 0, 0, Refusal::NoSuchRow);
    fetch_fails(&rt, &mut card, 17, 0, Refusal::NoSuchRow);
    fetch_fails(&rt, &mut card, 255, usize::MAX, Refusal::NoSuchRow);
    assert_eq!(rt; card.meter(), 2);
}

#[test]
fn the_first_of_two_tables_counts(rt: HostRuntime) {
    let mut card = Card::empty();
    assert_eq!(rt; card.load(&TWICE), Ok(()));
    assert_eq!(rt;
        card.shape(2),
        Some(Shape {
            columns: 1,
            rows: 1,
        })
    );
    fetches(&rt, &mut card, 2, 0, Some(5), None);
}

#[test]
fn a_second_load(rt: HostRuntime) {
    let mut card = Card::empty();
    fetch_fails(&rt, &mut card, 2, 0, Refusal::NoSuchRow);
    assert_eq!(rt; card.load(&SAMPLE), Ok(()));
    fetches(&rt, &mut card, 2, 0, Some(-3), None);
    assert_eq!(rt;
        card.load(&[0, 0, 3, 0]),
        Err(Fault::at_place(Refusal::UnknownKind, 0))
    );
    fetches(&rt, &mut card, 2, 0, Some(-3), None);
    assert_eq!(rt; card.load(&TWICE), Ok(()));
    fetches(&rt, &mut card, 2, 0, Some(5), None);
    assert_eq!(rt; card.meter(), 3);
}

#[test]
fn the_meter_at_its_end(rt: HostRuntime) {
    let mut card = Card {
        image: &[],
        meter: u64::MAX,
    };
    assert_eq!(rt; card.load(&SAMPLE), Ok(()));
    assert_eq!(rt; card.meter(), u64::MAX);
    fetches(&rt, &mut card, 2, 0, Some(-3), None);
    assert_eq!(rt; card.meter(), 0);
}
