// Lines: the transforms over whole numbers, and theorems about them, each on the contract of a function.
#![tactic(auto)]

ghost use Rattle.lines.specs.Examples.{LineFigures};
ghost use Rattle.lines.specs.Laws.{LinesBounded, LinesMeant, LinesNear};
ghost use Rattle.lines.specs.Places.{PlacesStand, RunsExist, StagesCompose};
ghost use Rattle.lines.specs.Rules.{OneTransform};

// The worked figures of lines, plans and the circle, in one statement.
pub fn line_figures_stand()
    ensures { LineFigures }
{}

// The place of a sample has its digits reversed, lies below the size, and leads back; the size is the radix to the number of stages.
pub fn places_stand()
    ensures { PlacesStand }
{}

// Stages compose, whatever it is for an entry of type E to stand for a number.
pub fn stages_compose<E>()
    ensures { StagesCompose E }
{}

// There are runs of stages, for all samples and every number of stages.
pub fn runs_exist()
    ensures { RunsExist }
{}

// The rules of direct, radix-2 and radix-4 lines have one solution at every lawful size.
pub fn lines_are_determined()
    ensures { OneTransform }
{}

// Each component of a line is at most the bound in size, where the samples lie within the sample scale.
pub fn lines_are_bounded()
    ensures { LinesBounded }
{}

// Modulo an odd number that the plan fits, the meaning of a line's residue is the line.
pub fn lines_are_meant()
    ensures { LinesMeant }
{}

// Each component of 2^30 times a line less the scale times the fine transform is at most 2^30 times the distance in size.
pub fn lines_are_near()
    ensures { LinesNear }
{}
