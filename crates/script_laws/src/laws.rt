// Laws of the definitions: a call does nothing, and its contract is the law.

ghost use Rattle.script_laws.specs.Laws.{PrintedIsSpelled, SpelledIsPrinted};

/// What is printed of a ground term spells that term, where it is within the limits of texts of terms, and no other one. The function does
/// nothing.
pub fn printed_terms_are_spelled()
    ensures spelled { PrintedIsSpelled }
    ensures only { SpelledIsPrinted }
{}
