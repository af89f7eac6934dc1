// By which equations are grouped.

ghost use Rattle.std.specs.Prelude.{◌≡◌, ◌<◌};
ghost use Rattle.spec_core.specs.Terms.{term_of};
ghost use Rattle.spec_core.specs.Theories.{equation_of};
ghost use Rattle.type_images.specs.Groups as groups;

use spec_core::equation::Equation;
use spec_core::term::Term;

// The number that an operation makes of another.
fn mixed(before: u64, operation: u32) -> u64
    requires { before < 4294967296 }
    ensures number { result ≡ groups.mixed before operation }
    ensures bound { result < 4294967296 }
{
    (before * 31 + operation as u64 + 1) % 4294967296
}

// The number that the operations of a term make of another.
#[tactic(auto, using(crate::proofs::Keys::keys_of_terms))]
fn term_key(before: u64, term: &Term) -> u64
    requires { before < 4294967296 }
    ensures number { result ≡ groups.term_key before (term_of term.now) }
    ensures bound { result < 4294967296 }
{
    match term {
        Term::Var(_) => before,
        Term::App(op, args) => {
            let mut now = mixed(before, op.0);
            for arg in args {
                now = term_key(now, arg);
            }
            now
        }
    }
}

/// The number of the group of an equation, of 32 bits. It takes no memory.
pub fn key_of(equation: &Equation) -> u64
    ensures { result ≡ groups.key_of (equation_of equation.now) }
{
    term_key(0, &equation.left)
}
