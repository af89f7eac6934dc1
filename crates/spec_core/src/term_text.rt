// Terms as text.

ghost use Rattle.std.specs.Prelude.{◌≡◌, ◌↔◌, ◌++◌, ◌∷◌, [], ℕ, List, IfOk, OnOk, IsTrue, MatchOption, Some, None, map, length};
ghost use Rattle.std.specs.Prelude.{string_bytes, count_by, vec_len};
ghost use Rattle.std.specs.List.{slice_get};
ghost use Rattle.spec_core.specs.TermText.{infix_word, infix_at, prefix_opening, opening, separator, closing, shares, sort_text};
ghost use Rattle.spec_core.specs.TermText.{gap_before, between_at, name_text, operation_name, head_name, first_gap, term_text};
ghost use Rattle.spec_core.specs.Terms.{terms, term_of};
ghost use Rattle.spec_core.specs.Theories.{operation_of, operations_of};

use crate::items::Op;
use crate::memory::Memory;
use crate::name::Name;
use crate::signature::{OpDecl, Signature, same_sorts};
use crate::term::Term;
use std::alloc::Global;

/// The term's text, with the variables' names from `names`: a constant and a variable are their names, a prefix application is
/// `f(t1,t2)`, an infix one `(t1 + t2)`. A term whose operation shares its name, letters of ASCII without case, and its argument
/// sorts with another operation of the signature has ` of S` after it. An operation or a variable without a name has no text.
pub fn term_text(
    alloc: Global,
    signature: &Signature,
    term: &Term,
    names: &[Name],
) -> Result<String, Memory>
    ensures spelled { IfOk result
        (λ text. string_bytes text ≡ term_text signature.now.sorts.items (operations_of signature.now) names.now (term_of term.now)) }
{
    let mut out = String::new(alloc);
    put_term(&mut out, signature, term, names)?;
    Ok(out)
}

// Appends a term's text.
fn put_term(
    out: &mut String,
    signature: &Signature,
    term: &Term,
    names: &[Name],
) -> Result<(), Memory>
    ensures { OnOk result (string_bytes out.new ≡
        string_bytes out.old ++ term_text signature.now.sorts.items (operations_of signature.now) names.now (term_of term.now)) }
{
    match term {
        Term::Var(variable) => put_variable(out, names, *variable),
        Term::App(op, args) => {
            let place = op.0 as usize;
            if place < signature.ops.len() {
                let declaration = &signature.ops[place];
                put_opening(out, signature, declaration, args, names)?;
                for (i, arg) in args.iter().enumerate() {
                    put_separator(out, declaration, args.len(), i)?;
                    put_term(out, signature, arg, names)?;
                }
                put_closing(out, args.len())?;
                put_sort(out, signature, declaration)
            } else {
                Ok(())
            }
        }
    }
}

// Appends a variable's name.
fn put_variable(out: &mut String, names: &[Name], variable: u32) -> Result<(), Memory>
    ensures { OnOk result (string_bytes out.new ≡ string_bytes out.old ++ name_text (slice_get names.now variable)) }
{
    out.push_str(name_at(names, variable))?;
    Ok(())
}

// Appends what stands before the arguments of an operation.
fn put_opening(
    out: &mut String,
    signature: &Signature,
    declaration: &OpDecl,
    args: &[Term],
    names: &[Name],
) -> Result<(), Memory>
    ensures { OnOk result (string_bytes out.new ≡
        string_bytes out.old ++
        (opening declaration.now.name (length args.now) ++
        first_gap (operations_of signature.now) names.now (terms (map term_of args.now)))) }
{
    match infix_word_at(declaration.name.as_str(), args.len()) {
        Some(_) => out.push_str("(")?,
        None => put_prefix_opening(out, declaration.name.as_str(), args.len())?,
    }
    put_first_gap(out, signature, args, names)
}

// Appends the name of an operation, and a bracket where it has arguments.
fn put_prefix_opening(out: &mut String, name: &str, count: usize) -> Result<(), Memory>
    ensures { OnOk result (string_bytes out.new ≡ string_bytes out.old ++ prefix_opening name.now count) }
{
    out.push_str(name)?;
    if count == 0 {
        return Ok(());
    }
    out.push_str("(")?;
    Ok(())
}

// Appends a blank where the first argument begins with `*`.
fn put_first_gap(
    out: &mut String,
    signature: &Signature,
    args: &[Term],
    names: &[Name],
) -> Result<(), Memory>
    ensures { OnOk result
        (string_bytes out.new ≡
        string_bytes out.old ++ first_gap (operations_of signature.now) names.now (terms (map term_of args.now))) }
{
    match args {
        [] => Ok(()),
        [first, ..] => put_gap(out, head_name(signature, first, names)),
    }
}

// Appends a blank where a name begins with `*`.
fn put_gap(out: &mut String, name: &str) -> Result<(), Memory>
    ensures { OnOk result (string_bytes out.new ≡ string_bytes out.old ++ gap_before name.now) }
{
    match name.as_bytes() {
        [] => Ok(()),
        [first, ..] => {
            if *first == b'*' {
                out.push_str(" ")?;
            }
            Ok(())
        }
    }
}

// The name of a term's operation, or of the variable.
fn head_name<'a>(signature: &'a Signature, term: &Term, names: &'a [Name]) -> &'a str
    ensures { result.now ≡ head_name (operations_of signature.now) names.now (term_of term.now) }
{
    match term {
        Term::Var(variable) => name_at(names, *variable),
        Term::App(op, _) => operation_name(signature, *op),
    }
}

// The name at a place, or none.
fn name_at(names: &[Name], place: u32) -> &str
    ensures { result.now ≡ name_text (slice_get names.now place) }
{
    let place = place as usize;
    if place < names.len() {
        names[place].as_str()
    } else {
        ""
    }
}

// The name of an operation, or none.
fn operation_name(signature: &Signature, op: Op) -> &str
    ensures { result.now ≡ operation_name (slice_get (operations_of signature.now) op.0) }
{
    let place = op.0 as usize;
    if place < signature.ops.len() {
        signature.ops[place].name.as_str()
    } else {
        ""
    }
}

// Appends what stands before the argument of this place.
fn put_separator(
    out: &mut String,
    declaration: &OpDecl,
    count: usize,
    place: usize,
) -> Result<(), Memory>
    ensures { OnOk result (string_bytes out.new ≡ string_bytes out.old ++ between_at (separator declaration.now.name count) place) }
{
    if place == 0 {
        return Ok(());
    }
    match infix_word_at(declaration.name.as_str(), count) {
        None => out.push_str(",")?,
        Some(word) => write!(out, " {word} ")?,
    }
    Ok(())
}

// Appends the bracket behind arguments.
fn put_closing(out: &mut String, count: usize) -> Result<(), Memory>
    ensures { OnOk result (string_bytes out.new ≡ string_bytes out.old ++ closing count) }
{
    if count > 0 {
        out.push_str(")")?;
    }
    Ok(())
}

// Appends ` of S` where the operation shares name and argument sorts with another one.
fn put_sort(out: &mut String, signature: &Signature, declaration: &OpDecl) -> Result<(), Memory>
    ensures { OnOk result (string_bytes out.new ≡
        string_bytes out.old ++ sort_text signature.now.sorts.items (operations_of signature.now) (operation_of declaration.now)) }
{
    if count_sharing(&signature.ops, declaration) <= 1 {
        return Ok(());
    }
    let sort = name_at(&signature.sorts, declaration.result.0);
    write!(out, " of {sort}")?;
    Ok(())
}

/// How many operations share name and argument sorts with this one. It takes no memory.
pub fn count_sharing(declarations: &[OpDecl], declaration: &OpDecl) -> usize
    ensures { result ≡ count_by (shares (operation_of declaration.now)) (map operation_of declarations.now) }
{
    let mut count = 0;
    for other in declarations {
        if share(declaration, other) {
            count += 1;
        }
    }
    count
}

// Whether two operations share name and argument sorts.
fn share(declaration: &OpDecl, other: &OpDecl) -> bool
    ensures { result ≡ shares (operation_of declaration.now) (operation_of other.now) }
{
    declaration
        .name
        .as_str()
        .eq_ignore_ascii_case(other.name.as_str())
        && same_sorts(&declaration.args, &other.args)
}

/// The word between two arguments of an infix operation. It takes no memory.
pub fn infix_word_at(name: &str, count: usize) -> Option<&str>
    ensures { MatchOption result (infix_at name.now count ≡ None) (λ word. infix_at name.now count ≡ Some word.now) }
{
    if count == 2 { word_between(name) } else { None }
}

// What stands between two underscores.
fn word_between(name: &str) -> Option<&str>
    ensures { MatchOption result (infix_word name.now ≡ None) (λ word. infix_word name.now ≡ Some word.now) }
{
    match name.strip_prefix('_') {
        None => None,
        Some(rest) => rest.strip_suffix('_'),
    }
}
