// Trees of rules.

ghost use Rattle.std.specs.Prelude.{ℕ, ◌≡◌, ◌<◌, ◌^◌, ◌++◌, List, IfOk, IsSome, OnOk, Some, codes, decimal};
ghost use Rattle.rule_model.specs.Derivations.{Derivation, both, derivation_of, gate, val};
ghost use Rattle.rule_model.specs.declared.rules.Slot.{Slot};
ghost use Rattle.spec_core.specs.Code.{program_of};
ghost use Rattle.trace_text.specs.Fits.{SlotFits, TreeFits};
ghost use Rattle.trace_text.specs.Names.{names_with};
ghost use Rattle.trace_text.specs.Trace.{slot_text, tree_text};
ghost use Rattle.trace_reader.specs.Cursors.{EndsTree, Finds, IsReadable};
ghost use Rattle.trace_reader.specs.Digits.{EndsNumber};

use crate::cursor::Cursor;
use crate::number::read_number;
use crate::rule_word::{RuleWord, take_rule};
use crate::slots::{read_slot, read_slots};
use rule_model::rules::{Rules, Slots};
use spec_core::memory::Memory;
use std::alloc::Global;
use value_text::vocabulary::Vocabulary;

// A choice of a value, behind its word.
#[cycle(read_tree)]
fn read_value_choice(
    alloc: Global,
    vocabulary: &Vocabulary,
    cursor: &mut Cursor,
    depth: usize,
) -> Result<Rules, Memory>
    requires readable { IsReadable vocabulary.now }
    ensures finds { IfOk result (λ rules. (slot : Slot) (d : Derivation) (rest : List ℕ) →
        SlotFits (program_of vocabulary.now.checked.now) slot → TreeFits (program_of vocabulary.now.checked.now) d →
        cursor.old ≡ Some (slot_text (names_with vocabulary.now) slot ++
        (codes "](" ++ (tree_text (names_with vocabulary.now) d ++ (codes ")" ++ rest)))) →
        (derivation_of rules ≡ val slot d) × (cursor.new ≡ Some rest)) }
    ensures fits { IfOk result (λ rules. IsSome cursor.new → TreeFits (program_of vocabulary.now.checked.now) (derivation_of rules)) }
    ensures kept { OnOk result (IsSome cursor.new → IsSome cursor.old) }
{
    let slot = read_slot(alloc, vocabulary, cursor)?;
    cursor.skip(b"](");
    let part = read_tree(alloc, vocabulary, cursor, depth)?;
    cursor.skip(b")");
    Rules::val(alloc, slot, part)
}

// A choice of a gate, behind its word.
#[cycle(read_tree)]
fn read_gate_choice(
    alloc: Global,
    vocabulary: &Vocabulary,
    cursor: &mut Cursor,
    depth: usize,
) -> Result<Rules, Memory>
    requires readable { IsReadable vocabulary.now }
    ensures finds { IfOk result (λ rules. (place : ℕ) (d : Derivation) (rest : List ℕ) →
        place < 2 ^ 32 → TreeFits (program_of vocabulary.now.checked.now) d →
        cursor.old ≡ Some (decimal place ++ (codes "](" ++ (tree_text (names_with vocabulary.now) d ++ (codes ")" ++ rest)))) →
        (derivation_of rules ≡ gate place d) × (cursor.new ≡ Some rest)) }
    ensures fits { IfOk result (λ rules. IsSome cursor.new → TreeFits (program_of vocabulary.now.checked.now) (derivation_of rules)) }
    ensures kept { OnOk result (IsSome cursor.new → IsSome cursor.old) }
{
    let place = read_place(cursor);
    cursor.skip(b"](");
    let part = read_tree(alloc, vocabulary, cursor, depth)?;
    cursor.skip(b")");
    Rules::gate(alloc, place, part)
}

// Two trees that act together, behind their word.
#[cycle(read_tree)]
fn read_both(
    alloc: Global,
    vocabulary: &Vocabulary,
    cursor: &mut Cursor,
    depth: usize,
) -> Result<Rules, Memory>
    requires readable { IsReadable vocabulary.now }
    ensures finds { IfOk result (λ rules. (d e : Derivation) (rest : List ℕ) →
        TreeFits (program_of vocabulary.now.checked.now) d → TreeFits (program_of vocabulary.now.checked.now) e →
        cursor.old ≡ Some (tree_text (names_with vocabulary.now) d ++
        (codes "," ++ (tree_text (names_with vocabulary.now) e ++ (codes ")" ++ rest)))) →
        (derivation_of rules ≡ both d e) × (cursor.new ≡ Some rest)) }
    ensures fits { IfOk result (λ rules. IsSome cursor.new → TreeFits (program_of vocabulary.now.checked.now) (derivation_of rules)) }
    ensures kept { OnOk result (IsSome cursor.new → IsSome cursor.old) }
{
    let left = read_tree(alloc, vocabulary, cursor, depth)?;
    cursor.skip(b",");
    let right = read_tree(alloc, vocabulary, cursor, depth)?;
    cursor.skip(b")");
    Rules::both(alloc, left, right)
}

// A number of 32 bits.
fn read_place(cursor: &mut Cursor) -> u32
    ensures finds { Finds decimal (λ n. n < 2 ^ 32) EndsNumber cursor.old cursor.new (λ n. result ≡ n) }
    ensures kept { IsSome cursor.new → IsSome cursor.old }
{
    match u32::try_from(read_number(cursor)) {
        Ok(place) => place,
        Err(_) => {
            cursor.lose();
            0
        }
    }
}

/// A tree, nested no deeper than this: what is deeper isn't read, for want of memory.
#[cycle(read_tree)]
pub fn read_tree(
    alloc: Global,
    vocabulary: &Vocabulary,
    cursor: &mut Cursor,
    depth: usize,
) -> Result<Rules, Memory>
    requires readable { IsReadable vocabulary.now }
    ensures finds { IfOk result (λ rules. Finds (tree_text (names_with vocabulary.now)) (TreeFits (program_of vocabulary.now.checked.now))
        EndsTree cursor.old cursor.new (λ d. derivation_of rules ≡ d)) }
    ensures fits { IfOk result (λ rules. IsSome cursor.new → TreeFits (program_of vocabulary.now.checked.now) (derivation_of rules)) }
    ensures kept { OnOk result (IsSome cursor.new → IsSome cursor.old) }
{
    if depth == 0 {
        return Err(Memory);
    }
    match take_rule(cursor) {
        None => {
            cursor.lose();
            Ok(Rules::Int)
        }
        Some(RuleWord::Pre) => Ok(Rules::Pre(Slots::new(read_slots(alloc, vocabulary, cursor)?))),
        Some(RuleWord::Int) => Ok(Rules::Int),
        Some(RuleWord::Exit) => Ok(Rules::Exit(Slots::new(read_slots(alloc, vocabulary, cursor)?))),
        Some(RuleWord::Val) => read_value_choice(alloc, vocabulary, cursor, depth - 1),
        Some(RuleWord::Gate) => read_gate_choice(alloc, vocabulary, cursor, depth - 1),
        Some(RuleWord::Both) => read_both(alloc, vocabulary, cursor, depth - 1),
        Some(RuleWord::Over(rule)) => {
            let part = read_tree(alloc, vocabulary, cursor, depth - 1)?;
            cursor.skip(b")");
            rule.over(alloc, part)
        }
    }
}
