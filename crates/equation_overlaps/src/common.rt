// The common instance of two left sides.

ghost use Rattle.std.specs.Prelude.{◌≡◌, ◌++◌, ◌∷◌, [], IfOk, OnOk, map, string_bytes};
ghost use Rattle.equation_overlaps.specs.Common.{shifted, common_instance, common_instances, common_names, common_text, primed};
ghost use Rattle.spec_core.specs.Terms.{term_of, terms};
ghost use Rattle.spec_core.specs.Theories.{equation_of, theory_of};

use spec_core::equation::{DataSpec, Equation};
use spec_core::memory::Memory;
use spec_core::name::Name;
use spec_core::names::copy_names;
use spec_core::term::Term;
use spec_core::term_text::term_text;
use std::alloc::Global;

// A term with a number added to those of its variables.
fn shifted(alloc: Global, count: u32, term: &Term) -> Result<Term, Memory>
    ensures { IfOk result (λ t. term_of t ≡ shifted count (term_of term.now)) }
{
    match term {
        Term::Var(x) => match count.checked_add(*x) {
            Some(sum) => Ok(Term::Var(sum)),
            None => Err(Memory),
        },
        Term::App(op, args) => {
            let mut all = Vec::new(alloc);
            for part in args {
                all.push(shifted(alloc, count, part)?)?;
            }
            Ok(Term::App(*op, all))
        }
    }
}

// The common instance of two terms, where the first has fewer than `count` variables.
#[cycle(common)]
fn common_instance(alloc: Global, count: u32, left: &Term, right: &Term) -> Result<Term, Memory>
    ensures { IfOk result (λ t. term_of t ≡ common_instance count (term_of left.now) (term_of right.now)) }
{
    match left {
        Term::Var(x) => match right {
            Term::Var(_) => Ok(Term::Var(*x)),
            Term::App(..) => shifted(alloc, count, right),
        },
        Term::App(op, parts) => match right {
            Term::Var(_) => left.copy(alloc),
            Term::App(_, others) => Ok(Term::App(
                *op,
                common_instances(alloc, count, parts, others)?,
            )),
        },
    }
}

// The common instances of each two terms of two lists.
#[cycle(common)]
fn common_instances(
    alloc: Global,
    count: u32,
    left: &[Term],
    right: &[Term],
) -> Result<Vec<Term>, Memory>
    ensures { IfOk result (λ all.
        terms (map term_of all.items) ≡ common_instances count (terms (map term_of left.now)) (terms (map term_of right.now))) }
{
    let mut all = Vec::new(alloc);
    for (i, part) in left.iter().enumerate() {
        if i >= right.len() {
            return Ok(all);
        }
        all.push(common_instance(alloc, count, part, &right[i])?)?;
    }
    Ok(all)
}

// A name with `'` after it.
fn primed(alloc: Global, name: &Name) -> Result<Name, Memory>
    ensures { IfOk result (λ n. n ≡ primed name.now) }
{
    let mut text = String::from_str(alloc, name.as_str())?;
    text.push_str("'")?;
    Ok(Name::new(text))
}

// Adds names with `'` after them.
fn add_primed(alloc: Global, names: &[Name], all: &mut Vec<Name>) -> Result<(), Memory>
    ensures { OnOk result (all.new.items ≡ all.old.items ++ map primed names.now) }
{
    for name in names {
        all.push(primed(alloc, name)?)?;
    }
    Ok(())
}

/// The text of the common instance of two left sides that meet: variables of the later equation that stay have `'` after their names,
/// and where two variables meet, the earlier equation's stays.
pub fn common_text(
    alloc: Global,
    algebra: &DataSpec,
    earlier: &Equation,
    later: &Equation,
) -> Result<Name, Memory>
    ensures text { IfOk result
        (λ name. name ≡ common_text (theory_of algebra.now) (equation_of earlier.now) (equation_of later.now)) }
{
    let mut names = copy_names(alloc, &earlier.names)?;
    add_primed(alloc, &later.names, &mut names)?;
    let count = u32::try_from(earlier.names.len()).map_err(|_| Memory)?;
    let term = common_instance(alloc, count, &earlier.left, &later.left)?;
    Ok(Name::new(term_text(alloc, &algebra.signature, &term, &names)?))
}
