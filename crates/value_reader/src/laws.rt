// Laws of the definitions: the call does nothing, and its contract is the law.

ghost use Rattle.value_reader.specs.Laws.{OneValue, PrintedIsRead};

/// What is printed of a ground term is read as that term; and two ground terms with one text are one. The function does nothing.
#[tactic(auto, using(crate::proofs::Values::printed_is_read))]
pub fn printed_values_are_read()
    ensures read { PrintedIsRead }
    ensures one { OneValue }
{}
