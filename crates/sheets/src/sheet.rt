ghost use Rattle.sheets.specs.Drafts.{draft_of, SpelledBy};

use crate::draft::Draft;

mod calls;
#[cfg(test)]
mod tests;

// A sheet, on which a query is entered. Every sheet that exists is spelled by some list of entries. What it means is
// `sheet_of`, and no `Model`, because it is `Copy` and holds bounded lists.
#[derive(Clone, Copy)]
pub struct Sheet {
    draft: Draft,
    ghost spelled: { ∥ SpelledBy (draft_of draft) ∥₁ },
}
