// Gates at places of lists, and relabellings of one gate.

ghost use Rattle.std.specs.Prelude.{ℕ, suc, [], ◌∷◌, ◌≡◌, IfOk, IfSome, IfNone, Some, map};
ghost use Rattle.std.specs.List.{slice_get};
ghost use Rattle.spec_core.specs.Code.{relabelling_of};
ghost use Rattle.spec_core.specs.Numbers.{gate_number};

use spec_core::items::Gate;
use spec_core::memory::Memory;
use std::alloc::Global;

/// The gate at a place of a list, counted from 1. It takes no memory.
pub fn gate_at(gates: &[Gate], place: u32) -> Option<Gate>
    ensures some { IfSome result (λ g. (i : ℕ) × (place ≡ suc i) × (slice_get (map gate_number gates.now) i ≡ Some g.0)) }
    ensures none { IfNone result ((i h : ℕ) → place ≡ suc i → slice_get (map gate_number gates.now) i ≡ Some h → ⊥) }
{
    if place == 0 {
        return None;
    }
    let index = (place - 1) as usize;
    if index < gates.len() {
        Some(gates[index])
    } else {
        None
    }
}

/// The relabelling from one gate to another.
pub fn renaming(alloc: Global, from: Gate, to: Gate) -> Result<Vec<(Gate, Gate)>, Memory>
    ensures renaming { IfOk result (λ all. map relabelling_of all.items ≡ record { from = from.0; to = to.0 } ∷ []) }
{
    let mut all = Vec::new(alloc);
    all.push((from, to))?;
    Ok(all)
}
