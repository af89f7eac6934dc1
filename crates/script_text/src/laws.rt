// Laws of the definitions: a call does nothing, and its contract is the law.

ghost use Rattle.script_text.specs.Laws.{OneScript, OneScriptFault, ScriptOrFault, OneTerm, OneTermFault, TermOrFault, LinesAreSpelled};

/// A text spells at most one script. Where it spells one, it has no fault; and it has at most one. The function does nothing.
pub fn a_text_spells_one_script()
    ensures one { OneScript }
    ensures one_fault { OneScriptFault }
    ensures not_both { ScriptOrFault }
{}

/// A text spells at most one term, of one sort. Where it spells one, it has no fault; and it has at most one. The function does nothing.
pub fn a_text_spells_one_term()
    ensures one { OneTerm }
    ensures one_fault { OneTermFault }
    ensures not_both { TermOrFault }
{}

/// What the grammar of a line as it is written spells is what is read with one token ahead, limits of nesting aside. The function does
/// nothing.
#[tactic(auto, using(crate::proofs::LineGrammar::lines_are_spelled))]
pub fn lines_are_spelled()
    ensures spelled { LinesAreSpelled }
{}
