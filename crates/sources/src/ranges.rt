// Lent cells are in range.
ghost use Rattle.std.specs.Prelude.{◌≡◌, true};
ghost use Rattle.terms.specs.Cells.{cell_in_range, every};

use terms::Cell;

// A number's type keeps it in a cell's range. A proof learns that of a number that the code holds, so each is taken out.
pub fn check_range(cells: &[Cell])
    ensures { every cell_in_range cells.now ≡ true }
{
    cells.iter().for_each(|cell| check_cell(*cell));
}

fn check_cell(cell: Cell)
    ensures { cell_in_range cell ≡ true }
{
    if let Some(_number) = cell {}
}
