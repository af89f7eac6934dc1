// What is wrong with an equation by itself.

ghost use Rattle.std.specs.Prelude.{◌≡◌, ◌∷◌, [], IfOk, IfSome, IfNone};
ghost use Rattle.std.specs.List.{slice_get};
ghost use Rattle.equation_faults.specs.Faults.{IsWellFormed, IsFaultOf, AreHeads, IsMarkedHead, refusal_at};
ghost use Rattle.spec_core.specs.Constructors.{IsMarked};
ghost use Rattle.spec_core.specs.Orthogonality.{HeadIsUnmarked};
ghost use Rattle.spec_core.specs.TermText.{name_text, operation_name};
ghost use Rattle.spec_core.specs.Theories.{theory_of, equation_of};

use crate::patterns::has_patterns;
use crate::repeated::{first_missing, first_repeated};
use crate::variables::{asked_variables, variables};
use equation_sets::set::NumberSet;
use lotos_ast::names::Names;
use lotos_ast::place::Place;
use lotos_ast::refusal::{Refusal, RefusalKind};
use spec_core::equation::{DataSpec, Equation};
use spec_core::items::Op;
use spec_core::memory::Memory;
use spec_core::name::Name;
use spec_core::term::Term;
use std::alloc::Global;

/// The refusal of an equation that isn't well-formed, where `heads` has the operations that head equations: 15
/// ConstructorHasEquation, 16 PatternHasDefined, 17 NotLeftLinear or 18 LooseVariable, the first of these that is due.
pub fn fault_of(
    alloc: Global,
    algebra: &DataSpec,
    heads: &NumberSet,
    equation: &Equation,
) -> Result<Option<Refusal>, Memory>
    requires heads { AreHeads (theory_of algebra.now) heads.now }
    ensures none { IfOk result (λ found. IfNone found (IsWellFormed (theory_of algebra.now) (equation_of equation.now))) }
    ensures fault { IfOk result (λ found. IfSome found (IsFaultOf (theory_of algebra.now) (equation_of equation.now))) }
{
    if let Some(operation) = marked_head(algebra, equation) {
        let kind = RefusalKind::ConstructorHasEquation;
        return Ok(Some(refusal_naming(kind, equation, vec![in alloc; operation.copy(alloc)?]?)));
    }
    if !has_patterns(algebra, heads, equation) {
        let kind = RefusalKind::PatternHasDefined;
        return Ok(Some(refusal_naming(kind, equation, Vec::new(alloc))));
    }
    let left = variables(alloc, &equation.left)?;
    if let Some(x) = first_repeated(alloc, &left)? {
        let kind = RefusalKind::NotLeftLinear;
        return Ok(Some(refusal_naming(kind, equation, name_of(alloc, equation, x)?)));
    }
    let asked = asked_variables(alloc, equation)?;
    if let Some(x) = first_missing(alloc, &left, &asked)? {
        let kind = RefusalKind::LooseVariable;
        return Ok(Some(refusal_naming(kind, equation, name_of(alloc, equation, x)?)));
    }
    Ok(None)
}

// The name of an operation that is marked as a constructor.
fn marked_name(algebra: &DataSpec, op: Op) -> Option<&Name>
    ensures none { IfNone result (IsMarked (theory_of algebra.now) op.0 → ⊥) }
    ensures marked { IfSome result (λ _. IsMarked (theory_of algebra.now) op.0) }
    ensures name { IfSome result (λ name. operation_name (slice_get (theory_of algebra.now).operations op.0) ≡ name.now) }
{
    let place = op.0 as usize;
    if place >= algebra.signature.ops.len() {
        return None;
    }
    let declaration = &algebra.signature.ops[place];
    if declaration.marked {
        Some(&declaration.name)
    } else {
        None
    }
}

// The name of the operation that heads an equation, if it is marked as a constructor.
fn marked_head<'a>(algebra: &'a DataSpec, equation: &Equation) -> Option<&'a Name>
    ensures none { IfNone result (HeadIsUnmarked (theory_of algebra.now) (equation_of equation.now)) }
    ensures marked { IfSome result (λ name. IsMarkedHead (theory_of algebra.now) (equation_of equation.now) name.now) }
{
    match &equation.left {
        Term::Var(_) => None,
        Term::App(op, _) => marked_name(algebra, *op),
    }
}

// The name of a variable of an equation, alone in a list.
fn name_of(alloc: Global, equation: &Equation, variable: u32) -> Result<Vec<Name>, Memory>
    ensures { IfOk result (λ names. names.items ≡ name_text (slice_get (equation_of equation.now).names variable) ∷ []) }
{
    let place = variable as usize;
    let name = if place < equation.names.len() {
        equation.names[place].copy(alloc)?
    } else {
        Name::new(String::new(alloc))
    };
    Ok(vec![in alloc; name]?)
}

/// The refusal of this kind at an equation's place, with these names. It takes no memory.
pub fn refusal_naming(kind: RefusalKind, equation: &Equation, names: Vec<Name>) -> Refusal
    ensures { result ≡ refusal_at kind (equation_of equation.now) names.items }
{
    Refusal {
        kind,
        place: Place {
            line: equation.place_line,
            column: equation.place_column,
        },
        names: Names::new(names),
    }
}
