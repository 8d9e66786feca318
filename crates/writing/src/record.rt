// One table record, put into a lent buffer.
ghost use Rattle.std.specs.Prelude.{◌≡◌, ℕ, ◌+◌, ◌*◌, ◌/◌, ◌%◌, ◌<◌, ◌≤◌, ◌++◌, length, take, drop, is_ok, IfOk, if◌then◌else◌};
ghost use Rattle.std.specs.List.{flat_map};
ghost use Rattle.sources.specs.Heads.{rows_in, head_table};
ghost use Rattle.cards.specs.Format.{row_width};
ghost use Rattle.writing.specs.Laws.{Shows};
ghost use Rattle.writing.specs.Records.{cell_bytes, mark_of, row_bytes, head_bytes, head_record, record_length, write_verdict, write_answer};

use cards::{RecordKind, row_width};
use sources::{TableHead, check_range};
use terms::{Cell, Fault, Refusal};

// Writes the table of a head over a list of cells as one record at the buffer's start, and answers how many bytes it has.
// The rest of the buffer is untouched, and a refusal leaves all of it as it was. The bytes written, loaded as an image, show
// the table that was written.
pub fn write_table(head: TableHead, cells: &[Cell], out: &mut [u8]) -> Result<usize, Fault>
    ensures answer { result ≡ write_answer head cells.now (length out.old) }
    ensures bytes { out.new ≡ (if is_ok result then head_record cells.now head ++ drop (length (head_record cells.now head)) out.old else out.old) }
    ensures loads { IfOk result (λ n. Shows (take n out.new) head.number (head_table cells.now head)) }
{
    check_write(head, cells.len(), out.len())?;
    let first = head.first;
    let end = first + head.rows * head.columns as usize;
    let rows = &cells[first..end];
    check_range(rows);
    let length = record_length(head);
    out[..6].copy_from_slice(&head_bytes(length - 4, head.number, head.columns));
    write_rows(head.columns, rows, &mut out[6..length]);
    Ok(length)
}

fn check_write(head: TableHead, cells: usize, room: usize) -> Result<(), Fault>
    ensures { result ≡ write_verdict head cells room }
{
    Fault::placed(head.check(cells), 0)?;
    if record_length(head) > room {
        return Err(Fault::at_place(Refusal::BufferShort, 0));
    }
    Ok(())
}

// The bytes of a table's record: four of head, the table's number and columns, and its rows.
fn record_length(head: TableHead) -> usize
    requires rows { head.rows ≤ 1024 }
    requires columns { head.columns ≤ 6 }
    ensures { result ≡ record_length head }
{
    6 + head.rows * row_width(head.columns)
}

// A record's head and its table's.
fn head_bytes(size: usize, number: u8, columns: u8) -> [u8; 6]
    requires { size < 65536 }
    ensures { result ≡ head_bytes size number columns }
{
    let [l0, l1] = (size as u16).to_le_bytes();
    let [k0, k1] = (RecordKind::Table as u16).to_le_bytes();
    [l0, l1, k0, k1, number, columns]
}

// Fills `out` with the rows that `cells` is made of, one after another.
fn write_rows(columns: u8, cells: &[Cell], out: &mut [u8])
    requires low { 1 ≤ columns }
    requires high { columns ≤ 6 }
    requires whole { length cells.now % columns ≡ 0 }
    requires room { length out.old ≡ length cells.now / columns * row_width columns }
    ensures { out.new ≡ flat_map row_bytes (rows_in (length cells.now / columns) columns cells.now) }
{
    let width = row_width(columns);
    // By its range: of bytes that `chunks_exact_mut` has lent, a proof knows nothing afterwards.
    for (i, row) in cells.chunks_exact(columns as usize).enumerate() {
        write_row(row, &mut out[i * width..(i + 1) * width]);
    }
}

// Fills `out` with one row, each cell by its place: of bytes that `chunks_exact_mut` has lent, a proof knows nothing
// afterwards. That there are six cells at most is in no type, as a head's columns are a plain number.
fn write_row(cells: &[Cell], out: &mut [u8])
    requires few { length cells.now ≤ 6 }
    requires room { length out.old ≡ row_width (length cells.now) }
    ensures { out.new ≡ row_bytes cells.now }
{
    out[0] = mark_of(cells);
    for (i, cell) in cells.iter().enumerate() {
        let at = 1 + 4 * i;
        out[at..at + 4].copy_from_slice(&cell_bytes(*cell));
    }
}

// The mark byte of a row: a bit for each absent cell. By recursion and no fold from the back, whose sums would each need a
// bound of their own.
#[tactic(auto, using(crate::proofs::Marks::mark_small, std::proofs::lemmas::Grind::common_steps))]
fn mark_of(cells: &[Cell]) -> u8
    requires { length cells.now ≤ 6 }
    ensures { result ≡ mark_of cells.now }
{
    match cells {
        [] => 0,
        [cell, rest @ ..] => u8::from(cell.is_none()) + 2 * mark_of(rest),
    }
}

fn cell_bytes(cell: Cell) -> [u8; 4]
    ensures { result ≡ cell_bytes cell }
{
    cell.map_or([0; 4], i32::to_le_bytes)
}
