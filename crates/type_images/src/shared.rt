// Equations that several owners share.

ghost use Rattle.std.specs.Prelude.{◌≡◌, IfOk};
ghost use Rattle.spec_core.specs.Theories.{equation_of};
ghost use Rattle.type_images.specs.Views.{shared_of};

use spec_core::equation::Equation;
use spec_core::memory::Memory;
use std::alloc::Global;
use std::rc::Rc;

/// An equation that several owners share.
#[derive(Drop)]
pub struct SharedEquation {
    equation: Rc<Equation>,
}

impl SharedEquation {
    /// An equation that can be shared.
    pub fn new(alloc: Global, equation: Equation) -> Result<SharedEquation, Memory>
        ensures { IfOk result (λ shared. shared_of shared ≡ equation_of equation) }
    {
        Ok(SharedEquation {
            equation: Rc::new(alloc, equation)?,
        })
    }

    /// The equation. It takes no memory.
    pub fn get(&self) -> &Equation
        ensures { equation_of result.now ≡ shared_of self.now }
    {
        &self.equation
    }

    /// The same equation, for one more owner.
    pub fn share(&self) -> Result<SharedEquation, Memory>
        ensures { IfOk result (λ shared. shared_of shared ≡ shared_of self.now) }
    {
        Ok(SharedEquation {
            equation: self.equation.clone()?,
        })
    }
}
