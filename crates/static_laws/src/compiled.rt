// Laws of the definitions: a call does nothing, and its contract is the law.

ghost use Rattle.static_laws.specs.Compiled.{ReadingsHaveSorts, ConstructsAreOne, ReadConstructsFit, ReadNodesFit, RootsNameBehaviour};
ghost use Rattle.static_laws.specs.Compiled.{CallsAtOnceAreWritten, AssembledIsReady};

/// A reading of an expression is a term of its sort.
pub fn readings_have_sorts()
    ensures { ReadingsHaveSorts }
{}

/// A construct is read as one thing where it stands, or as nothing, and has one list of refusals.
pub fn constructs_are_one()
    ensures { ConstructsAreOne }
{}

/// Where a construct is read, the last of its nodes stands for it wherever its site agrees with the program: what it speaks of is in scope,
/// terms have their sorts, calls fit their processes, and it ends as it was read to end.
pub fn read_constructs_fit()
    ensures { ReadConstructsFit }
{}

/// Where a construct is read, each of its nodes is a construct of behaviour whose parts have lower numbers, and whose call names a process.
pub fn read_nodes_fit()
    ensures { ReadNodesFit }
{}

/// Where a construct is read, the last of its nodes is a construct of behaviour, and no process.
pub fn roots_name_behaviour()
    ensures { RootsNameBehaviour }
{}

/// What the code of a construct calls before any action, the construct calls before any action.
pub fn calls_at_once_are_written()
    ensures { CallsAtOnceAreWritten }
{}

/// A program that is put together of constructs that are read, over executable data, in which no process calls itself before any action, is
/// ready to run.
pub fn assembled_is_ready()
    ensures { AssembledIsReady }
{}
