// The tree of an action, by the front that it shares with the tree before it.

ghost use Rattle.std.specs.Prelude.{ℕ, ◌≡◌, ◌≤◌, ◌++◌, List, IfOk, IfSome, IsSome, OnOk, Some, length, option_map, take};
ghost use Rattle.rule_model.specs.Derivations.{Derivation, derivation_of};
ghost use Rattle.spec_core.specs.Code.{program_of};
ghost use Rattle.trace_text.specs.Fits.{TreeFits};
ghost use Rattle.trace_text.specs.Formats.{rules_text};
ghost use Rattle.trace_text.specs.Names.{names_with};
ghost use Rattle.trace_text.specs.Trace.{tree_text};
ghost use Rattle.trace_text.specs.declared.format.Format.TheVariants.{Two};
ghost use Rattle.trace_reader.specs.Cursors.{IsReadable};
ghost use Rattle.trace_reader.specs.Fronts.{IsFound};
ghost use Rattle.value_reader.specs.Views.{bytes_of};

use crate::cursor::Cursor;
use crate::number::read_number;
use crate::tree::read_tree;
use crate::value::{DEEPEST, DEEPEST_LINE, nesting};
use rule_model::rules::Rules;
use spec_core::memory::Memory;
use std::alloc::Global;
use trace_text::Format;
use value_text::vocabulary::Vocabulary;

// The front of so many bytes of one text, and what is left of another behind it. None where the first text has fewer, or nothing is left.
fn behind_front(
    alloc: Global,
    tree: &[u8],
    size: u64,
    rest: Option<&[u8]>,
) -> Result<Option<Vec<u8>>, Memory>
    ensures { IfOk result (λ text. (more : List ℕ) → size ≤ length tree.now → bytes_of rest.entry ≡ Some more →
        IsFound (option_map (λ t. t.items) text) (take size tree.now ++ more)) }
{
    match rest {
        None => Ok(None),
        Some(rest) => {
            if size > tree.len() as u64 {
                return Ok(None);
            }
            let mut text = Vec::new(alloc);
            text.extend_from_slice(&tree[..size as usize])?;
            text.extend_from_slice(rest)?;
            Ok(Some(text))
        }
    }
}

// The tree with which a text begins. The cursor is lost where there is none.
fn tree_in(
    alloc: Global,
    vocabulary: &Vocabulary,
    cursor: &mut Cursor,
    text: &[u8],
) -> Result<Rules, Memory>
    requires readable { IsReadable vocabulary.now }
    ensures finds { IfOk result (λ rules. (d : Derivation) → TreeFits (program_of vocabulary.now.checked.now) d →
        text.now ≡ tree_text (names_with vocabulary.now) d → (derivation_of rules ≡ d) × (IsSome cursor.old → IsSome cursor.new)) }
    ensures fits { IfOk result (λ rules. IsSome cursor.new → TreeFits (program_of vocabulary.now.checked.now) (derivation_of rules)) }
    ensures kept { OnOk result (IsSome cursor.new → IsSome cursor.old) }
{
    if nesting(text) > DEEPEST_LINE {
        return Err(Memory);
    }
    let mut inner = Cursor::new(text);
    let rules = read_tree(alloc, vocabulary, &mut inner, DEEPEST)?;
    if inner.is_lost() {
        cursor.lose();
    }
    Ok(rules)
}

// A tree by the front that it shares with this text.
fn read_shared(
    alloc: Global,
    vocabulary: &Vocabulary,
    cursor: &mut Cursor,
    tree: &[u8],
) -> Result<Rules, Memory>
    requires readable { IsReadable vocabulary.now }
    ensures finds { IfOk result (λ rules. (d : Derivation) → TreeFits (program_of vocabulary.now.checked.now) d →
        cursor.old ≡ Some (rules_text Two tree.now (tree_text (names_with vocabulary.now) d)) →
        (derivation_of rules ≡ d) × IsSome cursor.new) }
    ensures fits { IfOk result (λ rules. IsSome cursor.new → TreeFits (program_of vocabulary.now.checked.now) (derivation_of rules)) }
    ensures kept { OnOk result (IsSome cursor.new → IsSome cursor.old) }
{
    let size = read_number(cursor);
    cursor.skip(b":");
    match behind_front(alloc, tree, size, cursor.rest())? {
        None => {
            cursor.lose();
            Ok(Rules::Int)
        }
        Some(text) => tree_in(alloc, vocabulary, cursor, text.as_slice()),
    }
}

/// The tree of an action, up to the end of its line, where the tree before it has this text.
pub fn read_rules(
    alloc: Global,
    vocabulary: &Vocabulary,
    cursor: &mut Cursor,
    format: Format,
    tree: &[u8],
) -> Result<Rules, Memory>
    requires readable { IsReadable vocabulary.now }
    ensures finds { IfOk result (λ rules. (d : Derivation) → TreeFits (program_of vocabulary.now.checked.now) d →
        cursor.old ≡ Some (rules_text format tree.now (tree_text (names_with vocabulary.now) d)) →
        (derivation_of rules ≡ d) × IsSome cursor.new) }
    ensures fits { IfOk result (λ rules. IsSome cursor.new → TreeFits (program_of vocabulary.now.checked.now) (derivation_of rules)) }
    ensures kept { OnOk result (IsSome cursor.new → IsSome cursor.old) }
{
    match format {
        Format::One => read_tree(alloc, vocabulary, cursor, DEEPEST),
        Format::Two => read_shared(alloc, vocabulary, cursor, tree),
    }
}
