// Writing at the edges of its refusals, and back by a load.
use crate::{record_of, write_table};
use cards::Card;
use sources::{Shape, Source, TableHead};
use std::process::Abort;
use terms::{Cell, Fault, Refusal};

const CELLS: [Cell; 6] = [Some(-3), None, Some(i32::MIN), Some(i32::MAX), None, None];

fn head(number: u8, columns: u8, first: usize, rows: usize) -> TableHead {
    TableHead {
        number,
        columns,
        first,
        rows,
    }
}

fn refuses(rt: &impl Abort, head: TableHead, room: usize, refusal: Refusal) {
    let mut out = [7; 64];
    assert!(rt; room <= 64);
    assert_eq!(rt;
        write_table(head, &CELLS, &mut out[0..room]),
        Err(Fault::at_place(refusal, 0))
    );
    assert_eq!(rt; out, [7; 64]);
}

#[test]
fn the_sample_record(rt: HostRuntime) {
    let mut out = [7; 18];
    assert_eq!(rt; write_table(head(2, 1, 0, 2), &CELLS, &mut out), Ok(16));
    assert_eq!(rt;
        out,
        [
            0x0c, 0, 1, 0, 2, 1, 0, 0xfd, 0xff, 0xff, 0xff, 1, 0, 0, 0, 0, 7, 7,
        ]
    );
}

#[test]
fn no_rows_and_a_later_first_cell(rt: HostRuntime) {
    let mut out = [7; 6];
    assert_eq!(rt; write_table(head(16, 6, 6, 0), &CELLS, &mut out), Ok(6));
    assert_eq!(rt; out, [2, 0, 1, 0, 16, 6]);
    let mut out = [7; 15];
    assert_eq!(rt; write_table(head(1, 2, 2, 1), &CELLS, &mut out), Ok(15));
    assert_eq!(rt;
        out,
        [11, 0, 1, 0, 1, 2, 0, 0, 0, 0, 0x80, 0xff, 0xff, 0xff, 0x7f]
    );
}

#[test]
fn refusals_in_their_order(rt: HostRuntime) {
    refuses(&rt, head(0, 1, 0, 2), 64, Refusal::BadTableHead);
    refuses(&rt, head(17, 1, 0, 2), 64, Refusal::BadTableHead);
    refuses(&rt, head(1, 0, 0, 2), 64, Refusal::BadTableHead);
    refuses(&rt, head(1, 7, 0, 1), 64, Refusal::BadTableHead);
    refuses(&rt, head(1, 1, 0, 7), 64, Refusal::BadRowCount);
    refuses(&rt, head(1, 1, 7, 0), 64, Refusal::BadRowCount);
    refuses(&rt, head(1, 1, usize::MAX, 1), 64, Refusal::BadRowCount);
    refuses(&rt, head(1, 1, 0, 1_025), 64, Refusal::BadRowCount);
    refuses(&rt, head(1, 1, 0, 2), 15, Refusal::BufferShort);
    refuses(&rt, head(0, 1, 0, 7), 0, Refusal::BadTableHead);
    refuses(&rt, head(1, 1, 0, 7), 0, Refusal::BadRowCount);
}

// Table 9 with the rows (least, greatest) and (absent, absent).
fn shows_nine(rt: &impl Abort, image: &[u8]) {
    let mut card = Card::empty();
    assert_eq!(rt; card.load(image), Ok(()));
    assert_eq!(rt;
        card.shape(9),
        Some(Shape {
            columns: 2,
            rows: 2,
        })
    );
    assert!(rt; record_of(&card, 9).is_some());
    assert!(rt; record_of(&card, 8).is_none());
    let mut place = [Some(7); 6];
    assert_eq!(rt; card.fetch(9, 0, &mut place), Ok(()));
    assert_eq!(rt;
        place,
        [Some(i32::MIN), Some(i32::MAX), None, None, None, None]
    );
    assert_eq!(rt; card.fetch(9, 1, &mut place), Ok(()));
    assert_eq!(rt; place, [None; 6]);
}

#[test]
fn written_and_loaded(rt: HostRuntime) {
    let mut out = [0; 24];
    assert_eq!(rt; write_table(head(9, 2, 2, 2), &CELLS, &mut out), Ok(24));
    shows_nine(&rt, &out);
}

fn loads(rt: &impl Abort, image: &[u8]) {
    assert_eq!(rt; Card::empty().load(image), Ok(()));
}

#[test]
fn the_largest_table(rt: HostRuntime) {
    let cells = [None; 6_144];
    let mut out = [0; 25_606];
    let short = write_table(head(1, 6, 0, 1_024), &cells, &mut out[0..25_605]);
    assert_eq!(rt; short, Err(Fault::at_place(Refusal::BufferShort, 0)));
    assert_eq!(rt;
        write_table(head(1, 6, 0, 1_024), &cells, &mut out),
        Ok(25_606)
    );
    loads(&rt, &out);
}
