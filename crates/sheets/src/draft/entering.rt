// Entries judged, and taken.
ghost use Rattle.std.specs.Prelude.{◌≡◌, ◌≤◌, false, is_ok, Some, None, Ok};
ghost use Rattle.std.specs.Option.{option_copied, option_map};
ghost use Rattle.meaning.specs.Spelling.{current, in_turn, all_by_equality, over_limit, nothing_selected, verdict_on, verdict, sheet_answer, ends, entered_by, entered};
ghost use Rattle.sheets.specs.Held.{query_of};
ghost use Rattle.sheets.specs.Drafts.{draft_of};

use crate::blocks::SheetQuery;
use crate::draft::Draft;
use queries::{Entry, Nest, Part};
use terms::{Comparison, Fault, Refusal};

impl Draft {
    // Takes an entry, or declines it and changes nothing.
    pub(crate) fn enter(&mut self, entry: Entry) -> Result<(), Fault>
        ensures answer { result ≡ sheet_answer (draft_of self.old) entry }
        ensures draft { draft_of self.new ≡ entered (draft_of self.old) entry }
        ensures declined { is_ok result ≡ false → self.new ≡ self.old }
    {
        let block = self.current();
        let part = self
            .verdict(entry)
            .map_err(|refusal| Fault::on_sheet(refusal, block))?;
        self.add(part);
        Ok(())
    }

    // The query so far.
    pub(crate) fn query(&self) -> Option<&SheetQuery>
        ensures { option_map query_of (option_copied result) ≡ (draft_of self.now).query }
    {
        match self {
            Draft::Fresh => None,
            Draft::Open(query) | Draft::Ended(query) => Some(query),
        }
    }

    pub(crate) fn is_ended(&self) -> bool
        ensures { result ≡ (draft_of self.now).ended }
    {
        matches!(self, Draft::Ended(_))
    }

    // The number of the current block.
    fn current(&self) -> u8
        ensures { result ≡ current (draft_of self.now) }
    {
        self.query().map_or(0, |query| query.depth() as u8)
    }

    // What the entry brings, or why it is declined: the checks in their order.
    fn verdict(&self, entry: Entry) -> Result<Part, Refusal>
        ensures { result ≡ verdict (draft_of self.now) entry }
    {
        if !self.in_turn(entry) {
            return Err(Refusal::OutOfTurn);
        }
        self.judged(Part::try_from(entry)?)
    }

    // The same of an entry whose numbers are in range.
    fn judged(&self, part: Part) -> Result<Part, Refusal>
        ensures { result ≡ verdict_on (draft_of self.now).query (Some part) }
    {
        if all_by_equality(part) {
            return Err(Refusal::AllByEquality);
        }
        if self.over_limit(part) {
            return Err(Refusal::OverLimit);
        }
        if self.nothing_selected(part) {
            return Err(Refusal::NothingSelected);
        }
        Ok(part)
    }

    fn in_turn(&self, entry: Entry) -> bool
        ensures { result ≡ in_turn (draft_of self.now) entry }
    {
        match (self, entry) {
            (Draft::Fresh, Entry::Open { .. }) => true,
            (Draft::Open(_), Entry::Open { .. }) => false,
            (Draft::Open(query), Entry::Link { .. }) => query.depth() >= 1,
            (Draft::Open(_), _) => true,
            _ => false,
        }
    }

    fn over_limit(&self, part: Part) -> bool
        ensures { result ≡ over_limit (draft_of self.now).query part }
    {
        self.query().is_some_and(|query| query.over_limit(part))
    }

    fn nothing_selected(&self, part: Part) -> bool
        ensures { result ≡ nothing_selected (draft_of self.now).query part }
    {
        self.query()
            .is_some_and(|query| query.nothing_selected(part))
    }

    // Goes on by what a taken entry brings.
    fn add(&mut self, part: Part)
        requires room { over_limit (draft_of self.old).query part ≡ false }
        requires opening { (draft_of self.old).query ≡ None → ends part ≡ false }
        ensures { draft_of self.new ≡ entered_by (draft_of self.old) (Ok part) }
    {
        *self = match (*self, part) {
            (Draft::Fresh, Part::Outermost { table }) => Draft::Open(SheetQuery::new(table)),
            (Draft::Fresh, _) => Draft::Fresh,
            (Draft::Open(query) | Draft::Ended(query), Part::Finished) => Draft::Ended(query),
            (Draft::Open(mut query) | Draft::Ended(mut query), _) => {
                query.add(part);
                Draft::Open(query)
            }
        };
    }
}

fn all_by_equality(part: Part) -> bool
    ensures { result ≡ all_by_equality part }
{
    matches!(
        part,
        Part::Nested {
            nest: Nest::All {
                comparison: Comparison::Equal | Comparison::NotEqual,
                ..
            },
            ..
        }
    )
}
