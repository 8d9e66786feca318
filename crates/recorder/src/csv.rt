// Tables as comma-separated values: a line for each row, an empty field for an absent cell.
use crate::copying::PlainTable;
use crate::joining::write_joined;
use sources::Shape;
use std::alloc::{AllocError, Global};
use std::fmt;
use std::num::ParseIntError;
use terms::{Cell, is_column};
use thiserror::Error;

// Why a text is no table.
#[derive(Debug, Drop, Error)]
pub(crate) enum CsvError {
    #[error("line {line}: field {field} is no whole number of a cell's range")]
    BadField {
        line: usize,
        field: usize,
    },
    #[error("line {line}: {fields} fields, but the first line has {columns}")]
    UnequalLine {
        line: usize,
        fields: usize,
        columns: usize,
    },
    #[error("a table has 1 to 6 columns")]
    ColumnCount,
    #[error(transparent)]
    Memory(#[from(alloc)] AllocError),
}

pub(crate) fn read_csv(heap: Global, text: &str) -> Result<PlainTable, CsvError> {
    let mut cells = Vec::new(heap);
    let mut columns = 0;
    let mut rows = 0;
    for (line, fields) in (1..).zip(text.lines()) {
        let before = cells.len();
        push_fields(&mut cells, line, fields)?;
        let fields = cells.len().saturating_sub(before);
        if line == 1 {
            columns = fields;
        }
        if fields != columns {
            return Err(CsvError::UnequalLine {
                line,
                fields,
                columns,
            });
        }
        rows = line;
    }
    match u8::try_from(columns) {
        Ok(columns) if is_column(columns) => Ok(PlainTable {
            shape: Shape { columns, rows },
            cells,
        }),
        _ => Err(CsvError::ColumnCount),
    }
}

// Puts the fields of the line with a number behind the cells before it.
fn push_fields(cells: &mut Vec<Cell>, line: usize, fields: &str) -> Result<(), CsvError> {
    for (field, text) in (1..).zip(fields.split(',')) {
        let cell = read_field(text).map_err(|_| CsvError::BadField { line, field })?;
        cells.push(cell)?;
    }
    Ok(())
}

fn read_field(text: &str) -> Result<Cell, ParseIntError> {
    if text.is_empty() {
        Ok(None)
    } else {
        text.parse().map(Some)
    }
}

impl fmt::Display for PlainTable {
    fn fmt<W: fmt::Write>(&self, f: &mut fmt::Formatter<W>) -> fmt::Result {
        for row in self.cells.chunks(self.shape.columns as usize) {
            write_line(f, row)?;
        }
        Ok(())
    }
}

fn write_line<W: fmt::Write>(f: &mut fmt::Formatter<W>, row: &[Cell]) -> fmt::Result {
    write_joined(f, "", ",", row.iter().copied().map(Field))?;
    f.write_str("\n")
}

// A cell as comma-separated values have it.
#[derive(Clone, Copy)]
struct Field(Cell);

impl fmt::Display for Field {
    fn fmt<W: fmt::Write>(&self, f: &mut fmt::Formatter<W>) -> fmt::Result {
        match self.0 {
            Some(number) => write!(f, "{number}"),
            None => Ok(()),
        }
    }
}
