// The equations that each operation heads, so that only equations of one operation are compared.

ghost use Rattle.std.specs.Prelude.{ℕ, ◌≡◌, ◌<◌, ◌++◌, ◌∷◌, ◌^◌, [], IfOk, OnOk, IfSome, IfNone, Option, Some, map, vec_len, length};
ghost use Rattle.equation_check.specs.Groups.{argument, first_operation, group_of, operation_at, place_if, places_at, seen};
ghost use Rattle.equation_check.specs.Groups.{IsIndexed, IsLeast};
ghost use Rattle.equation_faults.specs.Faults.{IsWellFormed};
ghost use Rattle.equation_faults.specs.Firsts.{IsFirstOf};
ghost use Rattle.spec_core.specs.Lists.{Each};
ghost use Rattle.spec_core.specs.Orthogonality.{AreApart};
ghost use Rattle.spec_core.specs.Terms.{term_of, terms};
ghost use Rattle.spec_core.specs.Theories.{theory_of, equation_of};

use equation_overlaps::apart::are_apart;
use indexmap::IndexMap;
use spec_core::equation::{DataSpec, Equation};
use spec_core::memory::Memory;
use spec_core::term::Term;
use std::alloc::Global;

/// The well-formed equations that an operation heads, in their order, with their places by the operations of their first arguments.
#[derive(Drop)]
pub struct Group<'a> {
    equations: Vec<&'a Equation>,
    // by the numbers of these operations
    places: IndexMap<u32, Vec<usize>>,
    // of those whose first argument is a variable, or that have none
    others: Vec<usize>,
}

// An empty group.
fn no_group<'a>(alloc: Global) -> Group<'a>
    ensures equations { result.equations.items ≡ [] }
    ensures places { (f : ℕ) → places_at result (Some f) ≡ [] }
    ensures others { result.others.items ≡ [] }
{
    Group {
        equations: Vec::new(alloc),
        places: IndexMap::new(alloc),
        others: Vec::new(alloc),
    }
}

/// As many empty groups.
pub fn no_groups<'a>(alloc: Global, count: usize) -> Result<Vec<Group<'a>>, Memory>
    ensures sized { IfOk result (λ groups. vec_len groups ≡ count) }
    ensures empty { IfOk result (λ groups. (f : ℕ) → group_of groups.items f ≡ []) }
    ensures indexed { IfOk result (λ groups. Each IsIndexed groups.items) }
{
    let mut groups = Vec::new(alloc);
    for _ in 0..count {
        groups.push(no_group(alloc))?;
    }
    Ok(groups)
}

// The operation of a term, if it isn't a variable.
fn operation_at(term: &Term) -> Option<u32>
    ensures { result ≡ operation_at (term_of term.now) }
{
    match term {
        Term::Var(_) => None,
        Term::App(op, _) => Some(op.0),
    }
}

// The operation of the first of these terms, if there is one that isn't a variable.
fn first_operation(args: &[Term]) -> Option<u32>
    ensures { result ≡ first_operation (terms (map term_of args.now)) }
{
    match args {
        [] => None,
        [first, ..] => operation_at(first),
    }
}

// The operation of a term's first argument, if it has one that isn't a variable.
fn argument(term: &Term) -> Option<u32>
    ensures { result ≡ argument (term_of term.now) }
{
    match term {
        Term::Var(_) => None,
        Term::App(_, args) => first_operation(args),
    }
}

impl<'a> Group<'a> {
    // Puts a place behind those of an operation.
    fn note_under(&mut self, op: u32, place: usize) -> Result<(), Memory>
        ensures equations { OnOk result (self.new.equations ≡ self.old.equations) }
        ensures others { OnOk result (self.new.others ≡ self.old.others) }
        ensures noted { OnOk result ((f : ℕ) → places_at self.new (Some f) ≡ places_at self.old (Some f) ++ place_if (Some f) (Some op) place) }
    {
        self.places.entry(op)?.or_default().push(place)?;
        Ok(())
    }

    // Puts a place behind those of an operation, or of none.
    fn note(&mut self, argument: Option<u32>, place: usize) -> Result<(), Memory>
        ensures equations { OnOk result (self.new.equations ≡ self.old.equations) }
        ensures noted { OnOk result ((o : Option ℕ) → places_at self.new o ≡ places_at self.old o ++ place_if o argument place) }
    {
        match argument {
            None => {
                self.others.push(place)?;
                Ok(())
            }
            Some(op) => self.note_under(op, place),
        }
    }

    // Puts an equation behind the others.
    fn add(&mut self, equation: &'a Equation) -> Result<(), Memory>
        requires { IsIndexed self.old }
        ensures added { OnOk result (map seen self.new.equations.items ≡ map seen self.old.equations.items ++ equation_of equation.now ∷ []) }
        ensures indexed { OnOk result (IsIndexed self.new) }
    {
        let argument = argument(&equation.left);
        let place = self.equations.len();
        self.note(argument, place)?;
        self.equations.push(equation)?;
        Ok(())
    }

    // The places of the equations whose first argument has an operation.
    fn places(&self, op: u32) -> &[usize]
        ensures { result.now ≡ places_at self.now (Some op) }
    {
        match self.places.get(&op) {
            None => &[],
            Some(all) => all,
        }
    }
}

/// Puts an equation at the end of a group.
pub fn add_to_group<'a>(
    groups: &mut Vec<Group<'a>>,
    place: usize,
    equation: &'a Equation,
) -> Result<(), Memory>
    requires within { place < vec_len groups.now }
    requires indexed { Each IsIndexed groups.old.items }
    ensures sized { OnOk result (vec_len groups.new ≡ vec_len groups.old) }
    ensures added { OnOk result (group_of groups.new.items place ≡ group_of groups.old.items place ++ equation_of equation.now ∷ []) }
    ensures others { OnOk result ((f : ℕ) → (f ≡ place → ⊥) → group_of groups.new.items f ≡ group_of groups.old.items f) }
    ensures indexed { OnOk result (Each IsIndexed groups.new.items) }
{
    let group = &mut groups[place];
    group.add(equation)?;
    Ok(())
}

// A place, where it is below a bound and its equation isn't apart from a later one; else the bound.
fn lowered(
    alloc: Global,
    algebra: &DataSpec,
    equations: &[&Equation],
    place: usize,
    later: &Equation,
    bound: usize,
) -> Result<usize, Memory>
    requires few { length (theory_of algebra.now).operations < 2 ^ 32 }
    requires group { Each (IsWellFormed (theory_of algebra.now)) (map seen equations.now) }
    requires later { IsWellFormed (theory_of algebra.now) (equation_of later.now) }
    requires within { place < length equations.now }
    ensures { IfOk result (IsLeast (theory_of algebra.now) (map seen equations.now) (equation_of later.now) (place ∷ []) bound) }
{
    if bound <= place {
        return Ok(bound);
    }
    if are_apart(alloc, algebra, equations[place], later)? {
        return Ok(bound);
    }
    Ok(place)
}

// The least of these places whose equation isn't apart from a later one, where it is below a bound; else the bound.
fn least_overlapped(
    alloc: Global,
    algebra: &DataSpec,
    equations: &[&Equation],
    places: &[usize],
    later: &Equation,
    bound: usize,
) -> Result<usize, Memory>
    requires few { length (theory_of algebra.now).operations < 2 ^ 32 }
    requires group { Each (IsWellFormed (theory_of algebra.now)) (map seen equations.now) }
    requires later { IsWellFormed (theory_of algebra.now) (equation_of later.now) }
    requires within { Each (λ place. place < length equations.now) places.now }
    ensures { IfOk result (IsLeast (theory_of algebra.now) (map seen equations.now) (equation_of later.now) places.now bound) }
{
    let mut least = bound;
    for place in places {
        least = lowered(alloc, algebra, equations, *place, later, least)?;
    }
    Ok(least)
}

// The first of these equations from which a later one isn't apart, where all of them are well-formed.
fn first_of_all<'a>(
    alloc: Global,
    algebra: &DataSpec,
    equations: &[&'a Equation],
    later: &Equation,
) -> Result<Option<&'a Equation>, Memory>
    requires few { length (theory_of algebra.now).operations < 2 ^ 32 }
    requires group { Each (IsWellFormed (theory_of algebra.now)) (map seen equations.now) }
    requires later { IsWellFormed (theory_of algebra.now) (equation_of later.now) }
    ensures none { IfOk result (λ found. IfNone found
        (Each (λ earlier. AreApart (theory_of algebra.now) earlier (equation_of later.now)) (map seen equations.now))) }
    ensures first { IfOk result (λ found. IfSome found (λ d.
        IsFirstOf (λ earlier. AreApart (theory_of algebra.now) earlier (equation_of later.now) → ⊥) (map seen equations.now) (seen d))) }
{
    for earlier in equations {
        if !are_apart(alloc, algebra, earlier, later)? {
            return Ok(Some(*earlier));
        }
    }
    Ok(None)
}

/// The first equation of a group from which a later equation isn't apart, where all of them are well-formed.
pub fn first_overlapped<'a>(
    alloc: Global,
    algebra: &DataSpec,
    group: &Group<'a>,
    later: &Equation,
) -> Result<Option<&'a Equation>, Memory>
    requires few { length (theory_of algebra.now).operations < 2 ^ 32 }
    requires group { Each (IsWellFormed (theory_of algebra.now)) (map seen group.now.equations.items) }
    requires later { IsWellFormed (theory_of algebra.now) (equation_of later.now) }
    requires indexed { IsIndexed group.now }
    ensures none { IfOk result (λ found. IfNone found
        (Each (λ earlier. AreApart (theory_of algebra.now) earlier (equation_of later.now)) (map seen group.now.equations.items))) }
    ensures first { IfOk result (λ found. IfSome found (λ d.
        IsFirstOf (λ earlier. AreApart (theory_of algebra.now) earlier (equation_of later.now) → ⊥) (map seen group.now.equations.items)
        (seen d))) }
{
    let equations: &[&'a Equation] = &group.equations;
    match argument(&later.left) {
        None => first_of_all(alloc, algebra, equations, later),
        Some(op) => {
            let places = group.places(op);
            let near = least_overlapped(alloc, algebra, equations, places, later, equations.len())?;
            let least = least_overlapped(alloc, algebra, equations, &group.others, later, near)?;
            if least < equations.len() {
                Ok(Some(equations[least]))
            } else {
                Ok(None)
            }
        }
    }
}
