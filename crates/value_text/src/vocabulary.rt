// The names of a specification, for printing.

ghost use Rattle.std.specs.Prelude.{◌≡◌, IfOk, Some, map};
ghost use Rattle.std.specs.List.{slice_get};
ghost use Rattle.spec_core.specs.Code.{program_of};
ghost use Rattle.spec_core.specs.Theories.{Operation, operation_of};
ghost use Rattle.value_text.specs.Values.{is_shared, sharing};
ghost use Rattle.value_text.specs.Vocabularies.{IsWhole, theory_in};

use spec_core::code::Checked;
use spec_core::items::Op;
use spec_core::memory::Memory;
use spec_core::signature::OpDecl;
use spec_core::term_text::count_sharing;
use std::alloc::Global;

/// A specification, and for each of its operations whether another one shares its name and its argument sorts.
#[derive(Drop)]
pub struct Vocabulary<'a> {
    pub checked: &'a Checked,
    pub shared: Vec<bool>,
}

impl<'a> Vocabulary<'a> {
    /// That of a specification.
    pub fn new(alloc: Global, checked: &'a Checked) -> Result<Vocabulary<'a>, Memory>
        ensures whole { IfOk result IsWhole }
        ensures same { IfOk result (λ v. program_of v.checked.now ≡ program_of checked.now) }
    {
        let shared = flags(alloc, &checked.algebra.signature.ops)?;
        Ok(Vocabulary { checked, shared })
    }

    /// Whether more than one operation has the name and the argument sorts of this one. It takes no memory.
    pub fn is_shared(&self, op: Op) -> bool
        requires whole { IsWhole self.now }
        ensures { (d : Operation) → slice_get (theory_in self.now).operations op.0 ≡ Some d →
            result ≡ is_shared (theory_in self.now).operations d }
    {
        let place = op.0 as usize;
        place < self.shared.len() && self.shared[place]
    }
}

// For each operation, whether another one shares its name and its argument sorts.
fn flags(alloc: Global, declarations: &[OpDecl]) -> Result<Vec<bool>, Memory>
    ensures { IfOk result (λ flags. flags.items ≡ sharing (map operation_of declarations.now)) }
{
    let mut flags = Vec::new(alloc);
    for declaration in declarations {
        flags.push(is_shared(declarations, declaration))?;
    }
    Ok(flags)
}

// Whether more than one operation has the name and the argument sorts of this one.
fn is_shared(declarations: &[OpDecl], declaration: &OpDecl) -> bool
    ensures { result ≡ is_shared (map operation_of declarations.now) (operation_of declaration.now) }
{
    count_sharing(declarations, declaration) > 1
}
