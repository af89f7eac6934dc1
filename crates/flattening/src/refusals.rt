// What is refused of a list of types.

ghost use Rattle.std.specs.Prelude.{◌≡◌, ◌++◌, ◌<◌, IfOk, OnOk, length, slice_index_or};
ghost use Rattle.type_contents.specs.Contents.{no_content};
ghost use Rattle.type_copies.specs.UnknownSorts.{unknown_sorts};
ghost use Rattle.flattening.specs.Refusals.{sort_refusals, refusals_by};
ghost use Rattle.flattening.specs.Views.{all_of};

use crate::copies::add_bad_copies;
use lotos_ast::refusal::Refusal;
use lotos_ast::types::TypeDef;
use spec_core::memory::Memory;
use std::alloc::Global;
use type_contents::contents::Contents;
use type_contents::flat::FlatData;
use type_copies::copy::items_at;
use type_copies::sorts::add_unknown_sorts;
use type_names::cycle_refusal::add_cycle;
use type_names::unknown::add_unknown_types;
use type_names::variables::add_duplicate_names;

// Refuses the sorts that the declarations of one type name and that it doesn't have.
fn add_sorts_of(
    alloc: Global,
    contents: &Contents,
    number: usize,
    definition: &TypeDef,
    refusals: &mut Vec<Refusal>,
) -> Result<(), Memory>
    ensures { OnOk result (refusals.new.items ≡ refusals.old.items ++ unknown_sorts
        (slice_index_or contents.now number no_content).items definition.now) }
{
    let content = contents.of_type(number);
    let items = items_at(alloc, content.table, content.items)?;
    add_unknown_sorts(alloc, &items, definition, refusals)
}

// Refuses the sorts that declarations name and that their types don't have.
fn add_sorts(
    alloc: Global,
    types: &[TypeDef],
    contents: &Contents,
    refusals: &mut Vec<Refusal>,
) -> Result<(), Memory>
    requires { length contents.now ≡ length types.now }
    ensures { OnOk result (refusals.new.items ≡ refusals.old.items ++ sort_refusals types.now contents.now) }
{
    for (number, definition) in types.iter().enumerate() {
        add_sorts_of(alloc, contents, number, definition, refusals)?;
    }
    Ok(())
}

/// What is refused of types that come to this.
pub fn refusals(
    alloc: Global,
    types: &[TypeDef],
    flat: &FlatData<'_>,
) -> Result<Vec<Refusal>, Memory>
    requires { length flat.now.contents ≡ length types.now }
    ensures { IfOk result (λ found. found.items ≡ refusals_by types.now flat.now.contents (all_of flat.now)) }
{
    let mut found = Vec::new(alloc);
    add_unknown_types(alloc, types, &mut found)?;
    add_cycle(alloc, types, &mut found)?;
    add_sorts(alloc, types, &flat.contents, &mut found)?;
    add_duplicate_names(alloc, types, &mut found)?;
    add_bad_copies(alloc, types, flat, &mut found)?;
    Ok(found)
}
