// Theorems about plans, each on the contract of a function.
ghost use Rattle.plan.specs.Examples.{WorkedFigures};
ghost use Rattle.plan.specs.Meaning.{OneMeaning};
ghost use Rattle.plan.specs.Methods.{SizesArePowers};

// The sizes of a method are the powers of its base up to 256, and no other number.
pub fn sizes_are_powers()
    ensures { SizesArePowers }
{}

// The rules for scale, bound and distance have one solution at every lawful size.
pub fn figures_are_determined()
    ensures { OneMeaning }
{}

// The worked figures of the circle and of plans, in one statement.
pub fn worked_figures_stand()
    ensures { WorkedFigures }
{}
