// The calls on a plan place.
ghost use Rattle.std.specs.Prelude.{◌≡◌, not, is_some, None};
ghost use Rattle.std.specs.Option.{option_map};
ghost use Rattle.meaning.specs.Spelling.{finished};
ghost use Rattle.sheets.specs.Held.{query_of};
ghost use Rattle.sheets.specs.Sheets.{sheet_of};
ghost use Rattle.plans.specs.Places.{held, Translates};

use crate::blocks::TranslatedQuery;
use crate::plan::Plan;
use crate::translation::translated_query;
use sheets::{Sheet, SheetQuery};
use terms::{Fault, Layer, Refusal};

impl Plan {
    pub fn empty() -> Plan
        ensures { held result ≡ None }
    {
        Plan { translated: None }
    }

    pub fn is_empty(&self) -> bool
        ensures { result ≡ not (is_some (held self.now)) }
    {
        self.translated.is_none()
    }

    // What the place holds; None where it is empty.
    pub fn translated(&self) -> Option<TranslatedQuery>
        ensures { result ≡ self.now.translated }
    {
        self.translated.as_ref().copied()
    }

    // Translates a finished sheet, in place of whatever was here; an unfinished one is refused, and the place is as it was.
    pub fn translate(&mut self, sheet: &Sheet) -> Result<(), Fault>
        ensures { Translates self.old sheet.now result self.new }
    {
        let Some(query) = finished_query(sheet) else {
            return Err(Fault::of_layer(Refusal::SheetUnfinished, Layer::Translation));
        };
        *self = Plan {
            translated: Some(translated_query(&query)),
        };
        Ok(())
    }
}

// The query of a sheet on which a finish was taken.
fn finished_query(sheet: &Sheet) -> Option<SheetQuery>
    ensures { option_map query_of result ≡ finished (sheet_of sheet.now) }
{
    if sheet.is_finished() {
        sheet.query()
    } else {
        None
    }
}
