// Values as text, without recursion.

ghost use Rattle.std.specs.Prelude.{◌≡◌, ◌++◌, ◌∷◌, [], ◌<◌, ℕ, IfOk, OnOk, MatchOption, Some, None, drop, length, map, reverse};
ghost use Rattle.std.specs.Prelude.{string_bytes, codes, if◌then◌else◌};
ghost use Rattle.std.specs.List.{slice_get};
ghost use Rattle.spec_core.specs.Numbers.{op_number};
ghost use Rattle.spec_core.specs.TermText.{prefix_opening, opening, separator, closing, sort_text, gap_before, between_at};
ghost use Rattle.spec_core.specs.TermText.{operation_name, first_gap};
ghost use Rattle.spec_core.specs.Theories.{operation_of, operations_of};
ghost use Rattle.value_text.specs.Unfinished.{first_name, opening_text, rest_text, first_rest};
ghost use Rattle.value_text.specs.Values.{first_terms, first_text, name_at, terms_in, value_text};
ghost use Rattle.value_text.specs.Vocabularies.{IsWhole, theory_in};

use crate::vocabulary::Vocabulary;
use spec_core::items::{Op, Sort};
use spec_core::memory::Memory;
use spec_core::name::Name;
use spec_core::signature::{OpDecl, Signature};
use spec_core::term_text::infix_word_at;
use spec_core::value::Value;

/// An operation that is printed in part: `begun` of its arguments are printed, or are being printed.
#[derive(Clone, Copy)]
pub struct Frame {
    pub op: Op,
    pub begun: usize,
}

// Appends the name of an operation, and a bracket where it has arguments.
fn put_prefix_opening(out: &mut String, name: &str, count: usize) -> Result<(), Memory>
    ensures { OnOk result (string_bytes out.new ≡ string_bytes out.old ++ prefix_opening name.now count) }
{
    out.push_str(name)?;
    if count == 0 {
        return Ok(());
    }
    out.push_str("(")?;
    Ok(())
}

// Appends what stands before the arguments of an operation.
fn put_operation(out: &mut String, name: &str, count: usize) -> Result<(), Memory>
    ensures { OnOk result (string_bytes out.new ≡ string_bytes out.old ++ opening name.now count) }
{
    match infix_word_at(name, count) {
        Some(_) => Ok(out.push_str("(")?),
        None => put_prefix_opening(out, name, count),
    }
}

// Appends a blank where a name begins with `*`.
fn put_gap(out: &mut String, name: &str) -> Result<(), Memory>
    ensures { OnOk result (string_bytes out.new ≡ string_bytes out.old ++ gap_before name.now) }
{
    match name.as_bytes() {
        [] => Ok(()),
        [first, ..] => {
            if *first == b'*' {
                out.push_str(" ")?;
            }
            Ok(())
        }
    }
}

// The name of an operation, or none.
fn operation_name(signature: &Signature, op: Op) -> &str
    ensures { result.now ≡ operation_name (slice_get (operations_of signature.now) op.0) }
{
    let place = op.0 as usize;
    if place < signature.ops.len() {
        signature.ops[place].name.as_str()
    } else {
        ""
    }
}

// The name of the first of these operations, or none.
fn first_name<'a>(signature: &'a Signature, ops: &[Op]) -> &'a str
    ensures { result.now ≡ first_name (operations_of signature.now) (map op_number ops.now) }
{
    match ops {
        [] => "",
        [first, ..] => operation_name(signature, *first),
    }
}

// Appends a blank where the first of the arguments begins with `*`.
#[tactic(auto, using(crate::proofs::Values::no_gap, crate::proofs::Values::gap))]
fn put_first_gap(
    out: &mut String,
    signature: &Signature,
    count: usize,
    ops: &[Op],
) -> Result<(), Memory>
    ensures { OnOk result (string_bytes out.new ≡ string_bytes out.old ++
        first_gap (operations_of signature.now) [] (first_terms count (terms_in (operations_of signature.now) (map op_number ops.now)))) }
{
    if count == 0 {
        return Ok(());
    }
    put_gap(out, first_name(signature, ops))
}

// Appends what stands before the arguments of an operation, where these operations follow.
fn put_opening(out: &mut String, vocabulary: &Vocabulary, op: Op, ops: &[Op]) -> Result<(), Memory>
    ensures { OnOk result (string_bytes out.new ≡ string_bytes out.old ++
        opening_text (theory_in vocabulary.now) (slice_get (theory_in vocabulary.now).operations op.0)
        (terms_in (theory_in vocabulary.now).operations (map op_number ops.now))) }
{
    let signature = &vocabulary.checked.algebra.signature;
    let place = op.0 as usize;
    if place < signature.ops.len() {
        let declaration = &signature.ops[place];
        let count = declaration.args.len();
        put_operation(out, declaration.name.as_str(), count)?;
        put_first_gap(out, signature, count, ops)
    } else {
        Ok(())
    }
}

// Appends what stands before the argument of this place.
fn put_separator(out: &mut String, name: &str, count: usize, place: usize) -> Result<(), Memory>
    ensures { OnOk result (string_bytes out.new ≡ string_bytes out.old ++ between_at (separator name.now count) place) }
{
    if place == 0 {
        return Ok(());
    }
    match infix_word_at(name, count) {
        None => Ok(out.push_str(",")?),
        Some(word) => Ok(write!(out, " {word} ")?),
    }
}

// Appends the bracket behind arguments.
fn put_closing(out: &mut String, count: usize) -> Result<(), Memory>
    ensures { OnOk result (string_bytes out.new ≡ string_bytes out.old ++ closing count) }
{
    if count > 0 {
        out.push_str(")")?;
    }
    Ok(())
}

/// Appends the name at this place, if there is one.
pub fn put_named(out: &mut String, names: &[Name], place: u32) -> Result<(), Memory>
    ensures { OnOk result (string_bytes out.new ≡ string_bytes out.old ++ name_at names.now place) }
{
    let place = place as usize;
    if place < names.len() {
        out.push_str(names[place].as_str())?;
    }
    Ok(())
}

// Appends ` of S` where more than one operation has the name and the argument sorts of this one.
fn put_sort(out: &mut String, names: &[Name], shared: bool, sort: Sort) -> Result<(), Memory>
    ensures { OnOk result (string_bytes out.new ≡ string_bytes out.old ++
        (if shared then codes " of " ++ name_at names.now sort.0 else [])) }
{
    if shared {
        out.push_str(" of ")?;
        put_named(out, names, sort.0)
    } else {
        Ok(())
    }
}

// Appends an operation up to its arguments.
fn put_head(
    out: &mut String,
    vocabulary: &Vocabulary,
    frames: &mut Vec<Frame>,
    first: Op,
    rest: &[Op],
) -> Result<(), Memory>
    ensures { OnOk result (
        string_bytes out.new ++
        rest_text (theory_in vocabulary.now) (reverse frames.new.items)
        (terms_in (theory_in vocabulary.now).operations (map op_number rest.now)) ≡
        string_bytes out.old ++ first_rest (theory_in vocabulary.now) (reverse frames.old.items)
        (terms_in (theory_in vocabulary.now).operations (first.0 ∷ map op_number rest.now))) }
{
    put_opening(out, vocabulary, first, rest)?;
    frames.push(Frame {
        op: first,
        begun: 0,
    })?;
    Ok(())
}

// Appends the first of these operations up to its arguments; gives those behind it.
fn put_first<'a>(
    out: &mut String,
    vocabulary: &Vocabulary,
    frames: &mut Vec<Frame>,
    ops: &'a [Op],
) -> Result<&'a [Op], Memory>
    ensures { IfOk result (λ rest.
        string_bytes out.new ++
        rest_text (theory_in vocabulary.now) (reverse frames.new.items)
        (terms_in (theory_in vocabulary.now).operations (map op_number rest.now)) ≡
        string_bytes out.old ++ first_rest (theory_in vocabulary.now) (reverse frames.old.items)
        (terms_in (theory_in vocabulary.now).operations (map op_number ops.now))) }
{
    match ops {
        [] => Ok(ops),
        [first, rest @ ..] => {
            put_head(out, vocabulary, frames, *first, rest)?;
            Ok(rest)
        }
    }
}

// The declaration of an operation.
fn declaration_of(signature: &Signature, op: Op) -> Option<&OpDecl>
    ensures { MatchOption result (slice_get (operations_of signature.now) op.0 ≡ None)
        (λ d. slice_get (operations_of signature.now) op.0 ≡ Some (operation_of d.now)) }
{
    let place = op.0 as usize;
    if place < signature.ops.len() {
        Some(&signature.ops[place])
    } else {
        None
    }
}

// Appends what stands before the next argument of an operation, and that argument up to its own arguments; gives the operations behind it.
fn put_argument<'a>(
    out: &mut String,
    vocabulary: &Vocabulary,
    declaration: &OpDecl,
    frame: Frame,
    frames: &mut Vec<Frame>,
    ops: &'a [Op],
) -> Result<&'a [Op], Memory>
    requires declared { slice_get (theory_in vocabulary.now).operations frame.op.0 ≡ Some (operation_of declaration.now) }
    requires left { frame.begun < length declaration.now.args.items }
    ensures { IfOk result (λ rest.
        string_bytes out.new ++
        rest_text (theory_in vocabulary.now) (reverse frames.new.items)
        (terms_in (theory_in vocabulary.now).operations (map op_number rest.now)) ≡
        string_bytes out.old ++ rest_text (theory_in vocabulary.now) (frame ∷ reverse frames.old.items)
        (terms_in (theory_in vocabulary.now).operations (map op_number ops.now))) }
{
    put_separator(
        out,
        declaration.name.as_str(),
        declaration.args.len(),
        frame.begun,
    )?;
    frames.push(Frame {
        op: frame.op,
        begun: frame.begun + 1,
    })?;
    put_first(out, vocabulary, frames, ops)
}

// Appends what stands behind the arguments of an operation.
fn put_end(
    out: &mut String,
    vocabulary: &Vocabulary,
    declaration: &OpDecl,
    op: Op,
) -> Result<(), Memory>
    requires whole { IsWhole vocabulary.now }
    requires declared { slice_get (theory_in vocabulary.now).operations op.0 ≡ Some (operation_of declaration.now) }
    ensures { OnOk result (string_bytes out.new ≡ string_bytes out.old ++ (closing (length declaration.now.args.items) ++
        sort_text (theory_in vocabulary.now).sorts (theory_in vocabulary.now).operations (operation_of declaration.now))) }
{
    put_closing(out, declaration.args.len())?;
    put_sort(
        out,
        &vocabulary.checked.algebra.signature.sorts,
        vocabulary.is_shared(op),
        declaration.result,
    )
}

// Appends what comes next of an operation that is printed in part; gives the operations that are left.
fn put_next<'a>(
    out: &mut String,
    vocabulary: &Vocabulary,
    frame: Frame,
    frames: &mut Vec<Frame>,
    ops: &'a [Op],
) -> Result<&'a [Op], Memory>
    requires whole { IsWhole vocabulary.now }
    ensures { IfOk result (λ rest.
        string_bytes out.new ++
        rest_text (theory_in vocabulary.now) (reverse frames.new.items)
        (terms_in (theory_in vocabulary.now).operations (map op_number rest.now)) ≡
        string_bytes out.old ++ rest_text (theory_in vocabulary.now) (frame ∷ reverse frames.old.items)
        (terms_in (theory_in vocabulary.now).operations (map op_number ops.now))) }
{
    match declaration_of(&vocabulary.checked.algebra.signature, frame.op) {
        None => Ok(ops),
        Some(declaration) => {
            if frame.begun < declaration.args.len() {
                return put_argument(out, vocabulary, declaration, frame, frames, ops);
            }
            put_end(out, vocabulary, declaration, frame.op)?;
            Ok(ops)
        }
    }
}

/// Appends a value's text: that of the term that its operations spell. It doesn't recur.
pub fn put_value(out: &mut String, vocabulary: &Vocabulary, value: &Value) -> Result<(), Memory>
    requires whole { IsWhole vocabulary.now }
    ensures { OnOk result (string_bytes out.new ≡ string_bytes out.old ++ value_text (theory_in vocabulary.now) value.now) }
{
    let mut frames = Vec::new(*out.allocator());
    let mut rest = put_first(out, vocabulary, &mut frames, value.as_slice())?;
    for _turn in 0..u64::MAX {
        match frames.pop() {
            None => return Ok(()),
            Some(frame) => rest = put_next(out, vocabulary, frame, &mut frames, rest)?,
        }
    }
    Err(Memory)
}
