// The own equations of types.

ghost use Rattle.std.specs.Prelude.{◌≡◌, ◌<◌, ◌-◌, ◌^◌, [], List, Some, IfOk, length, map, vec_len, slice_index_or};
ghost use Rattle.std.specs.List.{zip, IsDistinct};
ghost use Rattle.lotos_ast.specs.declared.refusal.Refusal.{Refusal};
ghost use Rattle.lotos_ast.specs.FirstRefusals.{first_refusal};
ghost use Rattle.lotos_ast.specs.Refusals.{IfRefused};
ghost use Rattle.spec_core.specs.Theories.{ConditionalEquation, equation_of};
ghost use Rattle.sort_overloads.specs.Judged.{Adds};
ghost use Rattle.sort_overloads.specs.Views.{context_of};
ghost use Rattle.static_equations.specs.Bodies.{IsBodyJudged};
ghost use Rattle.static_equations.specs.Gathered.{Gathers};
ghost use Rattle.type_contents.specs.Contents.{no_content};
ghost use Rattle.type_contents.specs.Items.{is_same_item};
ghost use Rattle.type_contents.specs.Views.{described_of, items_at, AreWithin};
ghost use Rattle.type_equation_copies.specs.Indexes.{IsIndexOf, items_in};
ghost use Rattle.flattening.specs.Flattens.{Flattens};
ghost use Rattle.static_presentation.specs.Own as own;
ghost use Rattle.static_presentation.specs.Signatures.{context_at};
ghost use Rattle.static_presentation.specs.Views.{equations_of};

use crate::bodies::bodies;
use crate::moved::moved_equations;
use crate::signature::{had_at, names_of, numbers_had, operations_over};
use lotos_ast::first_refusal::first_refusal;
use lotos_ast::refusal::{FrontFault, Refusal};
use lotos_ast::types::{EquationBody, TypeDef};
use sort_overloads::name_index::NameIndex;
use sort_overloads::scope::Scope;
use sort_overloads::variables::Variables;
use spec_core::equation::Equation;
use spec_core::memory::Memory;
use spec_core::signature::Signature;
use static_equations::body::judge_body;
use std::alloc::Global;
use type_contents::flat::FlatData;
use type_contents::item_table::ItemTable;
use type_equation_copies::item_index::ItemIndex;

// The scope of a type's equations, without variables, where the type has what stands at these numbers.
fn scope_at(
    alloc: Global,
    flat: &FlatData<'_>,
    sorts: &[u32],
    operations: &[u32],
) -> Result<Scope, Memory>
    ensures { IfOk result (λ scope. context_of scope ≡ context_at (map described_of flat.now.sorts.items)
        (map described_of flat.now.operations.items) sorts.now operations.now) }
{
    let sorts = had_at(alloc, &flat.sorts, sorts)?;
    let operations = had_at(alloc, &flat.operations, operations)?;
    if sorts.len() >= 4_294_967_296 {
        return Err(Memory);
    }
    Ok(Scope {
        signature: Signature {
            sorts: names_of(alloc, &sorts)?,
            ops: operations_over(alloc, &sorts, &operations)?,
        },
        vars: Variables::new(alloc),
    })
}

// The equations that are written so, in the numbers of the scope.
fn read_bodies(
    alloc: Global,
    written: &[&EquationBody],
    scope: &mut Scope,
    refusals: &mut Vec<Refusal>,
) -> Result<Vec<Equation>, Memory>
    requires few { vec_len scope.old.signature.ops < 2 ^ 32 }
    requires few_sorts { vec_len scope.old.signature.sorts < 2 ^ 32 - 1 }
    ensures read { IfOk result (λ read. Adds (Gathers (IsBodyJudged (context_of scope.old)) (map (λ b. b.now) written.now)
        (map equation_of read.items)) refusals.old.items refusals.new.items) }
{
    let index = NameIndex::new(alloc, &scope.signature.ops)?;
    let mut all = Vec::new(alloc);
    for body in written {
        judge_body(alloc, body, scope, &index, &mut all, refusals)?;
    }
    Ok(all)
}

// The equations that are written so in a type with this content, in the numbers of all sorts and operations.
fn read_of(
    alloc: Global,
    flat: &FlatData<'_>,
    sort_index: &ItemIndex<'_>,
    operation_index: &ItemIndex<'_>,
    table: &ItemTable,
    items: &[usize],
    written: &[&EquationBody],
    refusals: &mut Vec<Refusal>,
) -> Result<Vec<Equation>, Memory>
    requires few_sorts { vec_len flat.now.sorts < 2 ^ 32 }
    requires few_operations { vec_len flat.now.operations < 2 ^ 32 }
    requires sort_index { IsIndexOf sort_index.now (items_in (map described_of flat.now.sorts.items)) }
    requires operation_index { IsIndexOf operation_index.now (items_in (map described_of flat.now.operations.items)) }
    requires once_sorts { IsDistinct is_same_item (map (λ d. d.item) (map described_of flat.now.sorts.items)) }
    requires once_operations { IsDistinct is_same_item (map (λ d. d.item) (map described_of flat.now.operations.items)) }
    requires within { AreWithin (length table.now) items.now }
    ensures read { IfOk result (λ read. Adds (own.AreRead (map described_of flat.now.sorts.items)
        (map described_of flat.now.operations.items)
        (items_at table.now items.now) (map (λ b. b.now) written.now) (map equation_of read.items))
        refusals.old.items refusals.new.items) }
{
    let sorts = numbers_had(alloc, table, items, sort_index, &flat.sorts)?;
    let operations = numbers_had(alloc, table, items, operation_index, &flat.operations)?;
    let mut scope = scope_at(alloc, flat, &sorts, &operations)?;
    if scope.signature.sorts.len() >= 4_294_967_295 || scope.signature.ops.len() >= 4_294_967_296 {
        return Err(Memory);
    }
    let read = read_bodies(alloc, written, &mut scope, refusals)?;
    let moved = moved_equations(alloc, &read, &sorts, &operations)?;
    Ok(moved)
}

// The own equations of a type of this number.
fn own_of(
    alloc: Global,
    flat: &FlatData<'_>,
    sort_index: &ItemIndex<'_>,
    operation_index: &ItemIndex<'_>,
    number: usize,
    definition: &TypeDef,
    refusals: &mut Vec<Refusal>,
) -> Result<Vec<Equation>, Memory>
    requires few_sorts { vec_len flat.now.sorts < 2 ^ 32 }
    requires few_operations { vec_len flat.now.operations < 2 ^ 32 }
    requires sort_index { IsIndexOf sort_index.now (items_in (map described_of flat.now.sorts.items)) }
    requires operation_index { IsIndexOf operation_index.now (items_in (map described_of flat.now.operations.items)) }
    requires once_sorts { IsDistinct is_same_item (map (λ d. d.item) (map described_of flat.now.sorts.items)) }
    requires once_operations { IsDistinct is_same_item (map (λ d. d.item) (map described_of flat.now.operations.items)) }
    ensures read { IfOk result (λ read. Adds (own.AreRead (map described_of flat.now.sorts.items)
        (map described_of flat.now.operations.items)
        (slice_index_or flat.now.contents number no_content).items (own.bodies definition.now) (map equation_of read.items))
        refusals.old.items refusals.new.items) }
{
    let written = bodies(alloc, definition)?;
    if written.is_empty() {
        return Ok(Vec::new(alloc));
    }
    let content = flat.contents.of_type(number);
    read_of(
        alloc,
        flat,
        sort_index,
        operation_index,
        content.table,
        content.items,
        &written,
        refusals,
    )
}

// The own equations of each type.
fn all_own(
    alloc: Global,
    types: &[TypeDef],
    flat: &FlatData<'_>,
    refusals: &mut Vec<Refusal>,
) -> Result<Vec<Vec<Equation>>, Memory>
    requires few_sorts { vec_len flat.now.sorts < 2 ^ 32 }
    requires few_operations { vec_len flat.now.operations < 2 ^ 32 }
    requires as_many { length flat.now.contents ≡ length types.now }
    requires once_sorts { IsDistinct is_same_item (map (λ d. d.item) (map described_of flat.now.sorts.items)) }
    requires once_operations { IsDistinct is_same_item (map (λ d. d.item) (map described_of flat.now.operations.items)) }
    ensures own { IfOk result (λ all. Adds (Gathers (own.IsOwnOf (map described_of flat.now.sorts.items)
        (map described_of flat.now.operations.items)) (zip types.now flat.now.contents) (map equations_of all.items))
        refusals.old.items refusals.new.items) }
{
    let sorts = ItemIndex::of_described(alloc, &flat.sorts)?;
    let operations = ItemIndex::of_described(alloc, &flat.operations)?;
    let mut all = Vec::new(alloc);
    for (number, definition) in types.iter().enumerate() {
        let own = own_of(
            alloc,
            flat,
            &sorts,
            &operations,
            number,
            definition,
            refusals,
        )?;
        all.push(own)?;
    }
    Ok(all)
}

/// The own equations of each of the types that come to this, in the order of the types: those that a type declares, the formal ones first,
/// in the numbers of `flat.sorts` and `flat.operations`. Or the first of what is refused of them: at the earliest place, with the smallest
/// number there (8 UnknownSort, 12 UnknownName, 13 NoReading, 14 Ambiguous).
pub fn own_equations(
    alloc: Global,
    types: &[TypeDef],
    flat: &FlatData<'_>,
) -> Result<Vec<Vec<Equation>>, FrontFault>
    requires { Flattens types.now flat.now }
    ensures own { IfOk result (λ all. own.AreOwnEquations types.now (map equations_of all.items) []) }
    ensures refused { IfRefused result (λ r. (all : List (List ConditionalEquation)) × (refusals : List Refusal)
        × own.AreOwnEquations types.now all refusals × (first_refusal refusals ≡ Some r)) }
{
    if flat.sorts.len() >= 4_294_967_296 || flat.operations.len() >= 4_294_967_296 {
        return Err(FrontFault::Memory);
    }
    let mut refusals = Vec::new(alloc);
    let all = all_own(alloc, types, flat, &mut refusals)?;
    match first_refusal(refusals) {
        None => Ok(all),
        Some(refusal) => Err(FrontFault::Refused(refusal)),
    }
}
