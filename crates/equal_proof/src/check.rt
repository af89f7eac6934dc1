// The checker of certificates.

ghost use Rattle.std.specs.Prelude.{◌≡◌, ℕ, IfErr, IfOk, length};
ghost use Rattle.spec_core.specs.Executable.{IsExecutable};
ghost use Rattle.spec_core.specs.Lists.{Each};
ghost use Rattle.spec_core.specs.Terms.{preorder};
ghost use Rattle.spec_core.specs.Theories.{theory_of};
ghost use Rattle.value_table.specs.Tables.{tree_at};
ghost use Rattle.equal_proof.specs.Certificates.{FailsAt, ProvesSpelled};
ghost use Rattle.equal_proof.specs.Outcomes.{IsOneLeft, IsNoneLeft, NamesStep};
ghost use Rattle.equal_proof.specs.Pairs.{stack_of, IsPair};

use crate::fault::CheckFault;
use crate::pair::Pair;
use crate::proof::Proof;
use crate::steps::take_step;
use spec_core::equation::DataSpec;
use spec_core::value::Value;
use std::alloc::Global;
use value_table::spelling::spell;
use value_table::table::TermTable;

// How many equations a certificate that proves one leaves.
const LEFT: usize = 1;

// The two sides of the only equation of a stack, after so many steps.
fn only_equation(
    alloc: Global,
    table: &TermTable,
    stack: &[Pair],
    steps: usize,
) -> Result<(Value, Value), CheckFault>
    requires there { Each (IsPair table.now) stack.now }
    ensures one { IfOk result (λ sides. IsOneLeft (stack_of table.now stack.now) sides.0 sides.1) }
    ensures none { IfErr result (λ fault. NamesStep fault (λ step. (step ≡ steps) × IsNoneLeft (stack_of table.now stack.now))) }
{
    if stack.len() > LEFT {
        return Err(CheckFault::NotAProof { step: steps as u64 });
    }
    match stack {
        [] => Err(CheckFault::NotAProof { step: steps as u64 }),
        [pair, ..] => Ok((
            spell(alloc, table, pair.left)?,
            spell(alloc, table, pair.right)?,
        )),
    }
}

/// The equation that a certificate proves: its two sides, as the lists of their operations in preorder.
///
/// It evaluates nothing, doesn't recur as deep as the terms of the certificate, and keeps each term once, so that it compares terms by
/// their numbers.
pub fn check(alloc: Global, algebra: &DataSpec, proof: &Proof) -> Result<(Value, Value), CheckFault>
    requires executable { IsExecutable (theory_of algebra.now) }
    ensures proves { IfOk result (λ sides. ProvesSpelled (theory_of algebra.now) proof.now.steps.items sides.0 sides.1) }
    ensures not_a_proof { IfErr result (λ fault. NamesStep fault (FailsAt (theory_of algebra.now) proof.now.steps.items)) }
{
    let mut table = TermTable::new(alloc);
    let mut stack = Vec::new(alloc);
    for (number, step) in proof.steps.iter().enumerate() {
        if !take_step(alloc, &mut table, algebra, &mut stack, step)? {
            return Err(CheckFault::NotAProof {
                step: number as u64,
            });
        }
    }
    only_equation(alloc, &table, &stack, proof.steps.len())
}
