// Loads of heads at both sides of every refusal's edge, and what is read afterwards.
use crate::bench::Bench;
use crate::head::TableHead;
use crate::source::{Shape, Source};
use std::process::Abort;
use terms::{Cell, Fault, Refusal};

const CELLS: [Cell; 6] = [
    Some(4),
    Some(2),
    None,
    Some(-3),
    Some(i32::MIN),
    Some(i32::MAX),
];

fn head(number: u8, columns: u8, first: usize, rows: usize) -> TableHead {
    TableHead {
        number,
        columns,
        first,
        rows,
    }
}

fn loads(rt: &impl Abort, head: TableHead) {
    assert_eq!(rt; Bench::empty().load(&[head], &CELLS), Ok(()));
}

fn refuses(rt: &impl Abort, head: TableHead, refusal: Refusal) {
    assert_eq!(rt;
        Bench::empty().load(&[head], &CELLS),
        Err(Fault::at_place(refusal, 0))
    );
}

fn fetches(
    rt: &impl Abort,
    bench: &mut Bench<'_>,
    table: u8,
    row: usize,
    first: Cell,
    second: Cell,
) {
    let mut place = [Some(7); 6];
    assert_eq!(rt; bench.fetch(table, row, &mut place), Ok(()));
    assert_eq!(rt; place, [first, second, None, None, None, None]);
}

fn fetch_fails(rt: &impl Abort, bench: &mut Bench<'_>, table: u8, row: usize) {
    let mut place = [Some(7); 6];
    assert_eq!(rt;
        bench.fetch(table, row, &mut place),
        Err(Fault::of_row(Refusal::NoSuchRow, table, row))
    );
    assert_eq!(rt; place, [None; 6]);
}

#[test]
fn heads_in_and_out_of_range(rt: HostRuntime) {
    loads(&rt, head(1, 1, 0, 6));
    loads(&rt, head(16, 6, 0, 1));
    refuses(&rt, head(0, 1, 0, 6), Refusal::BadTableHead);
    refuses(&rt, head(17, 1, 0, 6), Refusal::BadTableHead);
    refuses(&rt, head(1, 0, 0, 6), Refusal::BadTableHead);
    refuses(&rt, head(1, 7, 0, 0), Refusal::BadTableHead);
}

#[test]
fn rows_within_and_past_the_cells(rt: HostRuntime) {
    loads(&rt, head(1, 2, 2, 2));
    refuses(&rt, head(1, 2, 3, 2), Refusal::BadRowCount);
    loads(&rt, head(1, 2, 6, 0));
    refuses(&rt, head(1, 2, 7, 0), Refusal::BadRowCount);
    refuses(&rt, head(1, 1, usize::MAX, 1), Refusal::BadRowCount);
    refuses(&rt, head(1, 6, 0, usize::MAX), Refusal::BadRowCount);
    refuses(&rt, head(1, 1, 0, 1_025), Refusal::BadRowCount);
    let cells = [None; 1_025];
    assert_eq!(rt;
        Bench::empty().load(&[head(1, 1, 0, 1_024)], &cells),
        Ok(())
    );
    assert_eq!(rt;
        Bench::empty().load(&[head(1, 1, 0, 1_025)], &cells),
        Err(Fault::at_place(Refusal::BadRowCount, 0))
    );
}

#[test]
fn the_first_refused_head_is_told(rt: HostRuntime) {
    let heads = [head(1, 1, 0, 6), head(2, 1, 0, 7), head(0, 1, 0, 1)];
    assert_eq!(rt;
        Bench::empty().load(&heads, &CELLS),
        Err(Fault::at_place(Refusal::BadRowCount, 1))
    );
}

#[test]
fn tables_are_read(rt: HostRuntime) {
    let heads = [head(3, 2, 0, 2), head(3, 1, 0, 6), head(5, 1, 4, 2)];
    let mut bench = Bench::empty();
    fetch_fails(&rt, &mut bench, 3, 0);
    assert_eq!(rt; bench.load(&heads, &CELLS), Ok(()));
    assert_eq!(rt;
        bench.shape(3),
        Some(Shape {
            columns: 2,
            rows: 2,
        })
    );
    assert_eq!(rt;
        bench.shape(5),
        Some(Shape {
            columns: 1,
            rows: 2,
        })
    );
    assert_eq!(rt; bench.shape(0), None);
    assert_eq!(rt; bench.shape(17), None);
    assert_eq!(rt; bench.shape(255), None);
    fetches(&rt, &mut bench, 3, 0, Some(4), Some(2));
    fetches(&rt, &mut bench, 3, 1, None, Some(-3));
    fetches(&rt, &mut bench, 5, 1, Some(i32::MAX), None);
    fetch_fails(&rt, &mut bench, 3, 2);
    fetch_fails(&rt, &mut bench, 255, usize::MAX);
    assert_eq!(rt; bench.meter(), 3);
}

#[test]
fn a_second_load(rt: HostRuntime) {
    let one = [head(3, 2, 0, 2)];
    let other = [head(4, 1, 3, 1)];
    let wrong = [head(4, 1, 6, 1)];
    let mut bench = Bench::empty();
    assert_eq!(rt; bench.load(&one, &CELLS), Ok(()));
    fetches(&rt, &mut bench, 3, 0, Some(4), Some(2));
    assert_eq!(rt;
        bench.load(&wrong, &CELLS),
        Err(Fault::at_place(Refusal::BadRowCount, 0))
    );
    fetches(&rt, &mut bench, 3, 0, Some(4), Some(2));
    assert_eq!(rt; bench.load(&other, &CELLS), Ok(()));
    fetch_fails(&rt, &mut bench, 3, 0);
    fetches(&rt, &mut bench, 4, 0, Some(-3), None);
    assert_eq!(rt; bench.meter(), 3);
}

#[test]
fn the_meter_at_its_end(rt: HostRuntime) {
    let heads = [head(3, 2, 0, 2)];
    let mut bench = Bench {
        heads: &[],
        cells: &[],
        meter: u64::MAX,
    };
    assert_eq!(rt; bench.load(&heads, &CELLS), Ok(()));
    fetches(&rt, &mut bench, 3, 0, Some(4), Some(2));
    assert_eq!(rt; bench.meter(), 0);
}
