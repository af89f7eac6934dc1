//! Generated specifications and scripts of any size: chains of cells.
#![tactic(auto)]

pub mod laws;
mod numbers;
mod pieces;
mod script;
mod specification;

ghost use Rattle.std.specs.Prelude.{◌≡◌, ◌<◌, ◌≤◌, IfOk, string_bytes};
ghost use Rattle.spec_generator.specs.Scripts.{script_text};
ghost use Rattle.spec_generator.specs.Specifications.{specification_text};

use script::put_script;
use spec_core::memory::Memory;
use specification::put_specification;
use std::alloc::Global;

/// The specification of a chain of `size` cells, from 1 to 64, and a script that sends as many numbers through it, which the seed gives. Of a
/// seed its lowest 31 bits count.
pub fn generate(alloc: Global, seed: u32, size: u32) -> Result<(String, String), Memory>
    requires some { 0 < size }
    requires few { size ≤ 64 }
    ensures specification { IfOk result (λ texts. string_bytes texts.0 ≡ specification_text size) }
    ensures script { IfOk result (λ texts. string_bytes texts.1 ≡ script_text seed size) }
{
    let mut specification = String::new(alloc);
    put_specification(&mut specification, size)?;
    let mut script = String::new(alloc);
    put_script(&mut script, seed, size)?;
    Ok((specification, script))
}
