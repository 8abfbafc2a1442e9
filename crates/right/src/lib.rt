// The law on opened lines, over every list of calls of a window.
#![tactic(auto)]

ghost use Rattle.states.specs.History.{OpenedLinesAreRight};

// Under every meaning of a scheme with the numbers N, after every list of calls on a new window over any block: the components of an
// opened line are those of the transform of the plan in force over the samples last loaded.
pub fn opened_lines_are_right<N>()
    ensures { OpenedLinesAreRight N }
{}
