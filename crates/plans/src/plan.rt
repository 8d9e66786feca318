ghost use Rattle.std.specs.Option.{option_map};
ghost use Rattle.plans.specs.Translated.{plan_of};
ghost use Rattle.plans.specs.Made.{Made};

use crate::blocks::TranslatedQuery;

mod calls;

// A place for a plan: empty, or the translation of some finished sheet. No other value exists. What it means is `plan_of`,
// and no `Model`, because it is `Copy` and holds bounded lists.
#[derive(Clone, Copy)]
pub struct Plan {
    translated: Option<TranslatedQuery>,
    ghost made: { ∥ Made (option_map plan_of translated) ∥₁ },
}
