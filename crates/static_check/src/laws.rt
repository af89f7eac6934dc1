// What holds of the definitions.

ghost use Rattle.static_check.specs.Laws.{ProcessesStandFirst, UnrefusedIsCompiled};

/// The first nodes of a compiled specification are processes, one for each that the text defines. The function does nothing.
pub fn processes_stand_first()
    ensures { ProcessesStandFirst }
{}

/// A specification of which nothing is refused comes to a program. The function does nothing.
pub fn what_is_not_refused_is_compiled()
    ensures { UnrefusedIsCompiled }
{}
