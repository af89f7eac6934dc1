// What windows ask of data.

ghost use Rattle.std.specs.Prelude.{IfOk, IsTrue};
ghost use Rattle.spec_core.specs.Orthogonality.{IsOrthogonal};
ghost use Rattle.spec_core.specs.Sorts.{FitsData};
ghost use Rattle.spec_core.specs.Theories.{theory_of};

use data_fits::fits_data;
use equation_check::check_shape;
use spec_core::equation::DataSpec;
use spec_core::memory::Memory;
use std::alloc::Global;

/// Whether the parts of data fit together, and their equations are orthogonal.
pub fn are_orthogonal(alloc: Global, algebra: &DataSpec) -> Result<bool, Memory>
    ensures fits { IfOk result (λ yes. IsTrue yes → FitsData (theory_of algebra.now)) }
    ensures orthogonal { IfOk result (λ yes. IsTrue yes → IsOrthogonal (theory_of algebra.now)) }
{
    if !fits_data(algebra) {
        return Ok(false);
    }
    match check_shape(alloc, algebra) {
        Ok(()) => Ok(true),
        Err(_) => Ok(false),
    }
}
