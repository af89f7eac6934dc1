// With which word the text of a tree of rules begins.

ghost use Rattle.std.specs.Prelude.{◌≡◌, IfOk, IsSome, Some};
ghost use Rattle.rule_model.specs.Derivations.{derivation_of};
ghost use Rattle.trace_reader.specs.Cursors.{Finds};
ghost use Rattle.trace_reader.specs.RuleWords.{over, rule_word, unary_word};

use crate::cursor::Cursor;
use crate::words::{Worded, take_first};
use rule_model::rules::Rules;
use spec_core::memory::Memory;
use std::alloc::Global;

/// The rules whose trees have one part and nothing else.
#[derive(Clone, Copy)]
pub enum Unary {
    Chl,
    Chr,
    Guard,
    Let,
    Parl,
    Parr,
    Hide,
    Pass,
    Enstep,
    Enend,
    Disstep,
    Disend,
    Distake,
    Call,
    Rel,
}

/// All rules.
#[derive(Clone, Copy)]
pub enum RuleWord {
    Pre,
    Int,
    Exit,
    Val,
    Gate,
    Both,
    Over(Unary),
}

const RULES: [RuleWord; 21] = [
    RuleWord::Pre,
    RuleWord::Int,
    RuleWord::Exit,
    RuleWord::Val,
    RuleWord::Gate,
    RuleWord::Both,
    RuleWord::Over(Unary::Chl),
    RuleWord::Over(Unary::Chr),
    RuleWord::Over(Unary::Guard),
    RuleWord::Over(Unary::Let),
    RuleWord::Over(Unary::Parl),
    RuleWord::Over(Unary::Parr),
    RuleWord::Over(Unary::Hide),
    RuleWord::Over(Unary::Pass),
    RuleWord::Over(Unary::Enstep),
    RuleWord::Over(Unary::Enend),
    RuleWord::Over(Unary::Disstep),
    RuleWord::Over(Unary::Disend),
    RuleWord::Over(Unary::Distake),
    RuleWord::Over(Unary::Call),
    RuleWord::Over(Unary::Rel),
];

impl Unary {
    // The word, and the bracket that opens behind it.
    fn word(self) -> &'static str
        ensures { result.now ≡ unary_word self }
    {
        match self {
            Unary::Chl => "chl(",
            Unary::Chr => "chr(",
            Unary::Guard => "guard(",
            Unary::Let => "let(",
            Unary::Parl => "parl(",
            Unary::Parr => "parr(",
            Unary::Hide => "hide(",
            Unary::Pass => "pass(",
            Unary::Enstep => "enstep(",
            Unary::Enend => "enend(",
            Unary::Disstep => "disstep(",
            Unary::Disend => "disend(",
            Unary::Distake => "distake(",
            Unary::Call => "call(",
            Unary::Rel => "rel(",
        }
    }

    /// The tree of the rule over the tree of its part.
    pub fn over(self, alloc: Global, part: Rules) -> Result<Rules, Memory>
        ensures { IfOk result (λ rules. derivation_of rules ≡ over self (derivation_of part)) }
    {
        match self {
            Unary::Chl => Rules::chl(alloc, part),
            Unary::Chr => Rules::chr(alloc, part),
            Unary::Guard => Rules::guard(alloc, part),
            Unary::Let => Rules::letting(alloc, part),
            Unary::Parl => Rules::parl(alloc, part),
            Unary::Parr => Rules::parr(alloc, part),
            Unary::Hide => Rules::hiding(alloc, part),
            Unary::Pass => Rules::pass(alloc, part),
            Unary::Enstep => Rules::enstep(alloc, part),
            Unary::Enend => Rules::enend(alloc, part),
            Unary::Disstep => Rules::disstep(alloc, part),
            Unary::Disend => Rules::disend(alloc, part),
            Unary::Distake => Rules::distake(alloc, part),
            Unary::Call => Rules::calling(alloc, part),
            Unary::Rel => Rules::rel(alloc, part),
        }
    }
}

impl Worded for RuleWord {
    ghost use Rattle.trace_reader.specs.RuleWords.{rule_word};

    ghost text = { rule_word };

    // The word, and the bracket that opens behind it where one must.
    fn word(self) -> &'static str {
        match self {
            RuleWord::Pre => "pre",
            RuleWord::Int => "int",
            RuleWord::Exit => "exit",
            RuleWord::Val => "val[",
            RuleWord::Gate => "gate[",
            RuleWord::Both => "both(",
            RuleWord::Over(rule) => rule.word(),
        }
    }
}

/// Takes the word of a rule, if one is next.
pub fn take_rule(cursor: &mut Cursor) -> Option<RuleWord>
    ensures finds { Finds rule_word (λ word. Unit {0}) (λ rest. Unit {0}) cursor.old cursor.new (λ word. result ≡ Some word) }
    ensures kept { IsSome cursor.new → IsSome cursor.old }
{
    take_first(cursor, &RULES)
}
