// The library's `not`, with the constants `true` and `false`.

ghost use Rattle.std.specs.Prelude.{ℕ, ◌≡◌, ◌↔◌, ◌<◌, ◌^◌, IfNone, IfSome, IsTrue, length};
ghost use Rattle.equation_overlaps.specs.Library.{IsRule, IsRuleIfHeaded};
ghost use Rattle.spec_core.specs.Lists.{Each, OneOf};
ghost use Rattle.spec_core.specs.Orthogonality.{IsNegation};
ghost use Rattle.spec_core.specs.Theories.{theory_of};

use crate::library::{is_named, is_of_library};
use crate::plain::is_rule;
use spec_core::constructors::heads;
use spec_core::equation::DataSpec;
use spec_core::items::Op;

// Whether an equation says that the operation over one constant is another.
fn has_rule(algebra: &DataSpec, op: Op, given: Op, value: Op) -> bool
    ensures { IsTrue result ↔ OneOf (IsRule op.0 given.0 value.0) (theory_of algebra.now).equations }
{
    for equation in &algebra.equations {
        if is_rule(equation, op, given, value) {
            return true;
        }
    }
    false
}

// Whether the operation heads no equation but the two rules of negation.
fn heads_rules_alone(algebra: &DataSpec, op: Op, yes: Op, no: Op) -> bool
    ensures { IsTrue result ↔ Each (IsRuleIfHeaded op.0 yes.0 no.0) (theory_of algebra.now).equations }
{
    for equation in &algebra.equations {
        if heads(equation, op)
            && !is_rule(equation, op, yes, no)
            && !is_rule(equation, op, no, yes)
        {
            return false;
        }
    }
    true
}

// Whether these are the library's `not` and its constants `true` and `false`.
fn is_negation(algebra: &DataSpec, op: Op, yes: Op, no: Op) -> bool
    ensures { IsTrue result ↔ IsNegation (theory_of algebra.now) op.0 yes.0 no.0 }
{
    let place = op.0 as usize;
    if place >= algebra.signature.ops.len() {
        return false;
    }
    let truth = algebra.signature.ops[place].result;
    is_of_library(algebra, op, "not", &[truth], truth)
        && is_of_library(algebra, yes, "true", &[], truth)
        && is_of_library(algebra, no, "false", &[], truth)
        && is_named(algebra, truth, "Bool")
        && has_rule(algebra, op, yes, no)
        && has_rule(algebra, op, no, yes)
        && heads_rules_alone(algebra, op, yes, no)
}

/// The library's `false`, where these are its `not` and its `true`. It takes no memory.
pub fn false_of(algebra: &DataSpec, op: Op, yes: Op) -> Option<Op>
    requires few { length (theory_of algebra.now).operations < 2 ^ 32 }
    ensures found { IfSome result (λ no. IsNegation (theory_of algebra.now) op.0 yes.0 no.0) }
    ensures none { IfNone result ((no : ℕ) → IsNegation (theory_of algebra.now) op.0 yes.0 no → ⊥) }
{
    for (i, _) in algebra.signature.ops.iter().enumerate() {
        let no = Op(i as u32);
        if is_negation(algebra, op, yes, no) {
            return Some(no);
        }
    }
    None
}
