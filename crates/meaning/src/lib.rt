// What a query means, what its flat plan does, and that both come to the same. The definitions are in specs/; the functions
// here have the theorems in their contracts, so that the check asks for the proofs.
#![tactic(auto)]

ghost use Rattle.std.specs.Prelude.{◌≡◌};
ghost use Rattle.meaning.specs.Examples.{Worked, Declined};
ghost use Rattle.meaning.specs.Statements.{FlatIsNested, FewSteps};

// The flat plan of a query gives the rows of nested iteration: for every kind of running total `T` that a house aggregate
// may have.
pub fn flat_is_nested<T>()
    ensures { FlatIsNested T }
{}

// How many steps a plan has at most.
pub fn most_steps() -> usize
    ensures value { result ≡ 14 }
    ensures enough { FewSteps result }
{
    14
}

// A dozen worked queries come out of the definitions as they were worked by hand.
pub fn examples_stand()
    ensures worked { Worked }
    ensures declined { Declined }
{}
