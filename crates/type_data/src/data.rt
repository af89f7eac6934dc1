// The call.

ghost use Rattle.std.specs.Prelude.{◌≡◌, IfOk, length, map};
ghost use Rattle.spec_core.specs.Theories.{equation_of, theory_of};
ghost use Rattle.type_images.specs.Images.{equation_image};
ghost use Rattle.type_images.specs.Views.{numbers_of};
ghost use Rattle.type_contents.specs.Contents as contents;
ghost use Rattle.type_contents.specs.FormalTypes.{formal_types};
ghost use Rattle.type_contents.specs.Numbering.{all_sorts, all_operations};
ghost use Rattle.type_contents.specs.Views.{described_of};
ghost use Rattle.type_equation_copies.specs.Contents.{equations};
ghost use Rattle.type_equation_copies.specs.Views.{made_at, stated_by};
ghost use Rattle.type_data.specs.Data as data_specs;

use crate::equations::data_equations;
use crate::items::{numbers_among, those_of_data};
use crate::signature::signature;
use lotos_ast::types::TypeDef;
use spec_core::equation::{DataSpec, Equation};
use spec_core::memory::Memory;
use std::alloc::Global;
use type_contents::flat::FlatData;
use type_contents::own::Declared;
use type_equation_copies::equations::TypeEquations;
use type_equation_copies::made::Prepared;
use type_equation_copies::schedule::equations_of;
use type_images::numbers::Renumbering;

// The equations of each type.
fn type_equations(
    alloc: Global,
    types: &[TypeDef],
    flat: &FlatData<'_>,
    own: &[Vec<Equation>],
) -> Result<Vec<Option<TypeEquations>>, Memory>
    requires sorts { map described_of flat.now.sorts.items ≡ all_sorts types.now }
    requires operations { map described_of flat.now.operations.items ≡ all_operations types.now }
    requires contents { flat.now.contents ≡ contents.contents types.now }
    requires own { length own.now ≡ length types.now }
    ensures { IfOk result (λ found. map made_at found.items ≡ equations types.now (stated_by own.now)) }
{
    let prepared = Prepared::of(alloc, &*types, &*flat)?;
    equations_of(alloc, &prepared, own)
}

// The sorts of the data.
fn data_sorts<'a>(
    alloc: Global,
    types: &[TypeDef],
    flat: &FlatData<'a>,
) -> Result<Vec<Declared<'a>>, Memory>
    requires sorts { map described_of flat.now.sorts.items ≡ all_sorts types.now }
    requires contents { flat.now.contents ≡ contents.contents types.now }
    requires formal { flat.now.formal.items ≡ formal_types types.now }
    ensures { IfOk result (λ some. map described_of some.items ≡ data_specs.data_sorts types.now) }
{
    let _ = types;
    let some = those_of_data(alloc, &flat.contents, &flat.formal, &flat.sorts)?;
    Ok(some)
}

// The operations of the data.
fn data_operations<'a>(
    alloc: Global,
    types: &[TypeDef],
    flat: &FlatData<'a>,
) -> Result<Vec<Declared<'a>>, Memory>
    requires operations { map described_of flat.now.operations.items ≡ all_operations types.now }
    requires contents { flat.now.contents ≡ contents.contents types.now }
    requires formal { flat.now.formal.items ≡ formal_types types.now }
    ensures { IfOk result (λ some. map described_of some.items ≡ data_specs.data_operations types.now) }
{
    let _ = types;
    let some = those_of_data(alloc, &flat.contents, &flat.formal, &flat.operations)?;
    Ok(some)
}

// The numbers among the data of all sorts and operations.
fn data_numbers(
    alloc: Global,
    types: &[TypeDef],
    flat: &FlatData<'_>,
    sorts: &[Declared<'_>],
    operations: &[Declared<'_>],
) -> Result<Renumbering, Memory>
    requires sorts { map described_of flat.now.sorts.items ≡ all_sorts types.now }
    requires operations { map described_of flat.now.operations.items ≡ all_operations types.now }
    requires data_sorts { map described_of sorts.now ≡ data_specs.data_sorts types.now }
    requires data_operations { map described_of operations.now ≡ data_specs.data_operations types.now }
    ensures { IfOk result (λ news. numbers_of news ≡ data_specs.data_numbers types.now) }
{
    let _ = types;
    let sort_numbers = numbers_among(alloc, sorts, &flat.sorts)?;
    let operation_numbers = numbers_among(alloc, operations, &flat.operations)?;
    Ok(Renumbering {
        sorts: sort_numbers,
        operations: operation_numbers,
    })
}

// The equations of the data.
fn equations_of_data(
    alloc: Global,
    types: &[TypeDef],
    flat: &FlatData<'_>,
    own: &[Vec<Equation>],
    news: &Renumbering,
) -> Result<Vec<Equation>, Memory>
    requires sorts { map described_of flat.now.sorts.items ≡ all_sorts types.now }
    requires operations { map described_of flat.now.operations.items ≡ all_operations types.now }
    requires contents { flat.now.contents ≡ contents.contents types.now }
    requires formal { flat.now.formal.items ≡ formal_types types.now }
    requires own { length own.now ≡ length types.now }
    requires news { numbers_of news.now ≡ data_specs.data_numbers types.now }
    ensures { IfOk result (λ all. map equation_of all.items ≡ map (equation_image (data_specs.data_numbers types.now))
        (data_specs.data_equations types.now (stated_by own.now))) }
{
    let found = type_equations(alloc, types, flat, own)?;
    let all = data_equations(alloc, &found, &flat.formal, news)?;
    Ok(all)
}

/// What types come to, as data: the sorts, operations and equations that a type has which isn't formal.
pub fn data_of(
    alloc: Global,
    types: &[TypeDef],
    flat: &FlatData<'_>,
    own: &[Vec<Equation>],
) -> Result<DataSpec, Memory>
    requires sorts { map described_of flat.now.sorts.items ≡ all_sorts types.now }
    requires operations { map described_of flat.now.operations.items ≡ all_operations types.now }
    requires contents { flat.now.contents ≡ contents.contents types.now }
    requires formal { flat.now.formal.items ≡ formal_types types.now }
    requires own { length own.now ≡ length types.now }
    ensures { IfOk result (λ d. theory_of d ≡ data_specs.data_of types.now (stated_by own.now)) }
{
    let sorts = data_sorts(alloc, types, flat)?;
    let operations = data_operations(alloc, types, flat)?;
    let signature = signature(alloc, &sorts, &operations)?;
    let news = data_numbers(alloc, types, flat, &sorts, &operations)?;
    let equations = equations_of_data(alloc, types, flat, own, &news)?;
    Ok(DataSpec {
        signature,
        equations,
    })
}
