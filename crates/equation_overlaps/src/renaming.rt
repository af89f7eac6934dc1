// Terms under new names of their variables.

ghost use Rattle.std.specs.Prelude.{◌≡◌, ◌<◌, IfOk, length, map, slice_set, vec_len};
ghost use Rattle.equation_overlaps.specs.Renamings.{new_name, renamed_term};
ghost use Rattle.spec_core.specs.Lists.{NoTwo};
ghost use Rattle.spec_core.specs.Orthogonality.{renamed};
ghost use Rattle.spec_core.specs.Terms.{term_of};
ghost use Rattle.spec_core.specs.Theories.{premise_of};

use equation_sets::numbers::bound_of;
use spec_core::memory::Memory;
use spec_core::term::Term;
use std::alloc::Global;

// A table of this length.
fn no_names(alloc: Global, count: usize) -> Result<Vec<u32>, Memory>
    ensures { IfOk result (λ names. vec_len names ≡ count) }
{
    let mut names = Vec::new(alloc);
    for _ in 0..count {
        names.push(0)?;
    }
    Ok(names)
}

// Puts a new name into the table.
fn put_name(names: &mut Vec<u32>, variable: u32, name: u32)
    requires { variable < vec_len names.now }
    ensures { names.new.items ≡ slice_set names.old.items variable name }
{
    names[variable as usize] = name;
}

/// The table that renames each variable of one list to that at its place in another list.
pub fn names_of(alloc: Global, from: &[u32], to: &[u32]) -> Result<Vec<u32>, Memory>
    requires distinct { NoTwo (λ x y. x ≡ y) from.now }
    requires paired { length from.now ≡ length to.now }
    ensures renames { IfOk result (λ names. map (new_name names.items) from.now ≡ to.now) }
{
    let mut names = no_names(alloc, bound_of(from))?;
    for (i, x) in from.iter().enumerate() {
        put_name(&mut names, *x, to[i]);
    }
    Ok(names)
}

// The new name of a variable.
fn new_name(names: &[u32], variable: u32) -> u32
    ensures { result ≡ new_name names.now variable }
{
    let place = variable as usize;
    if place < names.len() {
        names[place]
    } else {
        variable
    }
}

// A term under the new names of its variables.
fn renamed_term(alloc: Global, names: &[u32], term: &Term) -> Result<Term, Memory>
    ensures { IfOk result (λ t. term_of t ≡ renamed_term (new_name names.now) (term_of term.now)) }
{
    match term {
        Term::Var(x) => Ok(Term::Var(new_name(names, *x))),
        Term::App(op, args) => {
            let mut all = Vec::new(alloc);
            for part in args {
                all.push(renamed_term(alloc, names, part)?)?;
            }
            Ok(Term::App(*op, all))
        }
    }
}

/// Premises under the new names of their variables.
pub fn renamed_premises(
    alloc: Global,
    names: &[u32],
    premises: &[(Term, Term)],
) -> Result<Vec<(Term, Term)>, Memory>
    ensures renamed { IfOk result (λ all. map premise_of all.items ≡ map (renamed (new_name names.now)) (map premise_of premises.now)) }
{
    let mut all = Vec::new(alloc);
    for premise in premises {
        let left = renamed_term(alloc, names, &premise.0)?;
        let right = renamed_term(alloc, names, &premise.1)?;
        all.push((left, right))?;
    }
    Ok(all)
}
