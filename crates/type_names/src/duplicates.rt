// Refusals of names that are declared twice.

ghost use Rattle.std.specs.Prelude.{◌≡◌, ◌++◌, ◌∷◌, [], List, OnOk, map};
ghost use Rattle.lotos_ast.specs.declared.token.Token.{Token};
ghost use Rattle.type_names.specs.NameSets.{IsSetOf};
ghost use Rattle.type_names.specs.DuplicateNames.{name_twice, names_twice, types_twice};

use crate::name_set::NameSet;
use crate::names::type_names;
use crate::refused::refused;
use lotos_ast::refusal::{Refusal, RefusalKind};
use lotos_ast::token::Token;
use lotos_ast::types::TypeDef;
use spec_core::memory::Memory;
use std::alloc::Global;

// Refuses a name that is among those before it, and adds it to these.
#[tactic(auto, using(crate::proofs::Sets::twice_where, crate::proofs::Sets::one_more))]
fn add_name_twice(
    alloc: Global,
    before: &mut NameSet,
    name: &Token,
    refusals: &mut Vec<Refusal>,
) -> Result<(), Memory>
    ensures refusals { OnOk result ((names : List Token) → IsSetOf before.old names → refusals.new.items
        ≡ refusals.old.items ++ name_twice names name.now) }
    ensures before { OnOk result ((names : List Token) → IsSetOf before.old names → IsSetOf before.new (names ++ name.now ∷ [])) }
{
    if !before.add(alloc, name)? {
        refusals.push(refused(alloc, RefusalKind::DuplicateName, name.place))?;
    }
    Ok(())
}

/// Refuses those of the names that are among those before them.
pub fn add_names_twice(
    alloc: Global,
    names: &[&Token],
    refusals: &mut Vec<Refusal>,
) -> Result<(), Memory>
    ensures { OnOk result (refusals.new.items ≡ refusals.old.items ++ names_twice (map (λ t. t.now) names.now)) }
{
    let mut before = NameSet::new(alloc);
    for name in names {
        add_name_twice(alloc, &mut before, name, refusals)?;
    }
    Ok(())
}

/// Refuses the types that have the name of an earlier one.
pub fn add_types_twice(
    alloc: Global,
    types: &[TypeDef],
    refusals: &mut Vec<Refusal>,
) -> Result<(), Memory>
    ensures { OnOk result (refusals.new.items ≡ refusals.old.items ++ types_twice types.now) }
{
    let names = type_names(alloc, types)?;
    add_names_twice(alloc, &names, refusals)
}
