// The calls on a sheet. Each answers the definition's verdict on its entry, and leaves the sheet that the definition says:
// a declined entry changes nothing. Each kind of entry has a call of its own, which takes the numbers as the observer gave
// them: any may be out of range, so none has a type that would rule that out.
ghost use Rattle.std.specs.Prelude.{◌≡◌};
ghost use Rattle.std.specs.Option.{option_map};
ghost use Rattle.queries.specs.declared.entries.Entry.TheVariants as entries;
ghost use Rattle.meaning.specs.Spelling.{fresh, spelled};
ghost use Rattle.sheets.specs.Held.{query_of};
ghost use Rattle.sheets.specs.Sheets.{sheet_of, Entered};

use crate::blocks::SheetQuery;
use crate::draft::Draft;
use crate::sheet::Sheet;
use queries::Entry;
use terms::Fault;

impl Sheet {
    // A fresh sheet: no block yet.
    pub fn fresh() -> Sheet
        ensures { sheet_of result ≡ fresh }
    {
        Sheet {
            draft: Draft::Fresh,
        }
    }

    // Enters one entry.
    pub fn enter(&mut self, entry: Entry) -> Result<(), Fault>
        ensures { Entered self.old entry result self.new }
    {
        self.draft.enter(entry)
    }

    // Enters a whole list on a fresh sheet, whatever of it is declined.
    pub fn enter_all(entries: &[Entry]) -> Sheet
        ensures { sheet_of result ≡ spelled entries.now }
    {
        let mut sheet = Sheet::fresh();
        for entry in entries {
            let _ = sheet.enter(*entry);
        }
        sheet
    }

    // Makes block 0 over a table.
    pub fn open(&mut self, table: u8) -> Result<(), Fault>
        ensures { Entered self.old (entries.Open table) result self.new }
    {
        self.enter(Entry::Open { table })
    }

    // Adds to the current block a test of a column against a constant.
    pub fn test(&mut self, column: u8, comparison: u8, constant: i64) -> Result<(), Fault>
        ensures { Entered self.old (entries.Test column comparison constant) result self.new }
    {
        self.enter(Entry::Test {
            column,
            comparison,
            constant,
        })
    }

    // Adds to the current block a link of a column with a column of its parent.
    pub fn link(&mut self, column: u8, comparison: u8, parent: u8) -> Result<(), Fault>
        ensures { Entered self.old (entries.Link column comparison parent) result self.new }
    {
        self.enter(Entry::Link {
            column,
            comparison,
            parent,
        })
    }

    // Gives the current block its nested test, and makes the inner block over a table.
    pub fn nest(
        &mut self,
        form: u8,
        table: u8,
        operand: u8,
        comparison: u8,
        code: u8,
        inner: u8,
    ) -> Result<(), Fault>
        ensures { Entered self.old (entries.Nest form table operand comparison code inner) result self.new }
    {
        self.enter(Entry::Nest {
            form,
            table,
            operand,
            comparison,
            code,
            inner,
        })
    }

    // Adds an output column of block 0.
    pub fn select(&mut self, column: u8) -> Result<(), Fault>
        ensures { Entered self.old (entries.Select column) result self.new }
    {
        self.enter(Entry::Select { column })
    }

    // Ends the sheet.
    pub fn finish(&mut self) -> Result<(), Fault>
        ensures { Entered self.old entries.Finish result self.new }
    {
        self.enter(Entry::Finish)
    }

    // The query so far; None on a fresh sheet.
    pub fn query(&self) -> Option<SheetQuery>
        ensures { option_map query_of result ≡ (sheet_of self.now).query }
    {
        self.draft.query().copied()
    }

    // Whether a finish was taken.
    pub fn is_finished(&self) -> bool
        ensures { result ≡ (sheet_of self.now).ended }
    {
        self.draft.is_ended()
    }
}
