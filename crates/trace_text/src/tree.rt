// Trees of inference rules as text.

ghost use Rattle.std.specs.Prelude.{◌≡◌, ◌++◌, ◌∷◌, [], OnOk, codes, flat_map, string_bytes};
ghost use Rattle.rule_model.specs.Derivations.{derivation_of};
ghost use Rattle.trace_text.specs.Trace.{slot_text, slots_text, tree_text};
ghost use Rattle.value_text.specs.Vocabularies.{IsWhole};
ghost use Rattle.trace_text.specs.Names.{names_with};

use crate::pieces::{put, put_place};
use rule_model::rules::{Rules, Slot};
use spec_core::memory::Memory;
use value_text::value::put_value;
use value_text::vocabulary::Vocabulary;

// Appends a chosen value.
fn put_slot(out: &mut String, vocabulary: &Vocabulary, slot: &Slot) -> Result<(), Memory>
    requires whole { IsWhole vocabulary.now }
    ensures { OnOk result (string_bytes out.new ≡ string_bytes out.old ++ slot_text (names_with vocabulary.now) slot.now) }
{
    match slot {
        Slot::Of(value) => put_value(out, vocabulary, value),
        Slot::Mark => put(out, "?"),
        Slot::Blank => Ok(()),
    }
}

// Appends chosen values, each behind a comma.
fn put_more_slots(out: &mut String, vocabulary: &Vocabulary, slots: &[Slot]) -> Result<(), Memory>
    requires whole { IsWhole vocabulary.now }
    ensures { OnOk result (string_bytes out.new ≡
        string_bytes out.old ++ flat_map (λ other. codes "," ++ slot_text (names_with vocabulary.now) other) slots.now) }
{
    for slot in slots {
        put(out, ",")?;
        put_slot(out, vocabulary, slot)?;
    }
    Ok(())
}

// Appends one chosen value and others, in brackets.
fn put_some_slots(
    out: &mut String,
    vocabulary: &Vocabulary,
    first: &Slot,
    rest: &[Slot],
) -> Result<(), Memory>
    requires whole { IsWhole vocabulary.now }
    ensures { OnOk result
        (string_bytes out.new ≡ string_bytes out.old ++ slots_text (names_with vocabulary.now) (first.now ∷ rest.now)) }
{
    put(out, "[")?;
    put_slot(out, vocabulary, first)?;
    put_more_slots(out, vocabulary, rest)?;
    put(out, "]")
}

// Appends chosen values in brackets, if there are any.
fn put_slots(out: &mut String, vocabulary: &Vocabulary, slots: &[Slot]) -> Result<(), Memory>
    requires whole { IsWhole vocabulary.now }
    ensures { OnOk result (string_bytes out.new ≡ string_bytes out.old ++ slots_text (names_with vocabulary.now) slots.now) }
{
    match slots {
        [] => Ok(()),
        [first, rest @ ..] => put_some_slots(out, vocabulary, first, rest),
    }
}

// Appends a word, and a tree in brackets.
#[cycle(put_tree)]
fn put_part(
    out: &mut String,
    vocabulary: &Vocabulary,
    word: &str,
    part: &Rules,
) -> Result<(), Memory>
    requires whole { IsWhole vocabulary.now }
    ensures { OnOk result (string_bytes out.new ≡ string_bytes out.old ++
        (word.now ++ codes "(" ++ tree_text (names_with vocabulary.now) (derivation_of part.now) ++ codes ")")) }
{
    put(out, word)?;
    put(out, "(")?;
    put_tree(out, vocabulary, part)?;
    put(out, ")")
}

// Appends a tree.
#[cycle(put_tree)]
pub fn put_tree(out: &mut String, vocabulary: &Vocabulary, rules: &Rules) -> Result<(), Memory>
    requires whole { IsWhole vocabulary.now }
    ensures { OnOk result (string_bytes out.new ≡
        string_bytes out.old ++ tree_text (names_with vocabulary.now) (derivation_of rules.now)) }
{
    match rules {
        Rules::Pre(slots) => {
            put(out, "pre")?;
            put_slots(out, vocabulary, slots.as_slice())
        }
        Rules::Int => put(out, "int"),
        Rules::Exit(slots) => {
            put(out, "exit")?;
            put_slots(out, vocabulary, slots.as_slice())
        }
        Rules::Chl(part) => put_part(out, vocabulary, "chl", part),
        Rules::Chr(part) => put_part(out, vocabulary, "chr", part),
        Rules::Val(slot, part) => {
            put(out, "val")?;
            put_some_slots(out, vocabulary, slot, &[])?;
            put_part(out, vocabulary, "", part)
        }
        Rules::Gate(place, part) => {
            put(out, "gate[")?;
            put_place(out, *place)?;
            put_part(out, vocabulary, "]", part)
        }
        Rules::Guard(part) => put_part(out, vocabulary, "guard", part),
        Rules::Let(part) => put_part(out, vocabulary, "let", part),
        Rules::Parl(part) => put_part(out, vocabulary, "parl", part),
        Rules::Parr(part) => put_part(out, vocabulary, "parr", part),
        Rules::Both(left, right) => {
            put(out, "both(")?;
            put_tree(out, vocabulary, left)?;
            put(out, ",")?;
            put_tree(out, vocabulary, right)?;
            put(out, ")")
        }
        Rules::Hide(part) => put_part(out, vocabulary, "hide", part),
        Rules::Pass(part) => put_part(out, vocabulary, "pass", part),
        Rules::Enstep(part) => put_part(out, vocabulary, "enstep", part),
        Rules::Enend(part) => put_part(out, vocabulary, "enend", part),
        Rules::Disstep(part) => put_part(out, vocabulary, "disstep", part),
        Rules::Disend(part) => put_part(out, vocabulary, "disend", part),
        Rules::Distake(part) => put_part(out, vocabulary, "distake", part),
        Rules::Call(part) => put_part(out, vocabulary, "call", part),
        Rules::Rel(part) => put_part(out, vocabulary, "rel", part),
    }
}
