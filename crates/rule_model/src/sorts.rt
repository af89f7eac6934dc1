// Sorts of values.

ghost use Rattle.std.specs.Prelude.{◌≡◌};
ghost use Rattle.spec_core.specs.Theories.{theory_of};
ghost use Rattle.rule_model.specs.Meets as meets;

use spec_core::equation::DataSpec;
use spec_core::items::{Op, Sort};

/// The result sort of a declared operation; of none, the first sort. It takes no memory.
pub fn result_sort(algebra: &DataSpec, op: Op) -> Sort
    ensures { result.0 ≡ meets.result_sort (theory_of algebra.now) op.0 }
{
    match algebra.signature.ops.get(op.0 as usize) {
        None => Sort(0),
        Some(declared) => declared.result,
    }
}
