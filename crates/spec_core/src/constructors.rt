// Which operations are constructors.

ghost use Rattle.std.specs.Prelude.{◌≡◌, ◌↔◌, IsTrue};
ghost use Rattle.spec_core.specs.Constructors.{IsMarked, HeadsNone, IsConstructor};
ghost use Rattle.spec_core.specs.Theories.{Heads, equation_of, theory_of};

use crate::equation::{DataSpec, Equation};
use crate::items::Op;
use crate::term::Term;

/// Whether an operation is a constructor: it heads no equation, or its declaration marks it. It takes no memory.
pub fn is_constructor(algebra: &DataSpec, op: Op) -> bool
    ensures decides { IsTrue result ↔ IsConstructor (theory_of algebra.now) op.0 }
{
    is_marked(algebra, op) || heads_none(algebra, op)
}

/// Whether the declaration marks the operation as a constructor. It takes no memory.
pub fn is_marked(algebra: &DataSpec, op: Op) -> bool
    ensures decides { IsTrue result ↔ IsMarked (theory_of algebra.now) op.0 }
{
    let place = op.0 as usize;
    place < algebra.signature.ops.len() && algebra.signature.ops[place].marked
}

// Whether the operation heads no equation.
fn heads_none(algebra: &DataSpec, op: Op) -> bool
    ensures { IsTrue result ↔ HeadsNone (theory_of algebra.now) op.0 }
{
    for equation in &algebra.equations {
        if heads(equation, op) {
            return false;
        }
    }
    true
}

/// Whether the equation's left side is the operation over some terms. It takes no memory.
pub fn heads(equation: &Equation, op: Op) -> bool
    ensures { IsTrue result ↔ Heads op.0 (equation_of equation.now) }
{
    match &equation.left {
        Term::Var(_) => false,
        Term::App(head, _) => head.0 == op.0,
    }
}
