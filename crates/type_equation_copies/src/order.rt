// The equations of a type in order.

ghost use Rattle.std.specs.Prelude.{◌≡◌, IfOk, OnOk, map, slice_index_or, if◌then◌else◌};
ghost use Rattle.std.specs.List.{filter, fold};
ghost use Rattle.type_images.specs.Same as same;
ghost use Rattle.type_images.specs.Groups.{equations_of, IsGrouped};
ghost use Rattle.type_equation_copies.specs.Contents as contents;
ghost use Rattle.type_images.specs.Views.{shared_of};
ghost use Rattle.type_equation_copies.specs.Views.{made_at};

use crate::equations::{TypeEquations, all_at, brought_at};
use indexmap::IndexSet;
use spec_core::memory::Memory;
use std::alloc::Global;
use type_contents::item_table::number_set;
use type_images::set::{EquationSet, grouped};
use type_images::shared::SharedEquation;

// Adds an equation that the content has, unless it is there.
fn add_one(
    set: &mut EquationSet,
    content: &EquationSet,
    equation: &SharedEquation,
) -> Result<(), Memory>
    requires set { IsGrouped set.old }
    requires content { IsGrouped content.now }
    ensures equations { OnOk result (equations_of set.new ≡ (if same.is_in (equations_of content.now) (shared_of equation.now) then
        same.with_equation (equations_of set.old) (shared_of equation.now) else equations_of set.old)) }
    ensures grouped { OnOk result (IsGrouped set.new) }
{
    if content.has(equation.get()) {
        set.add(equation)
    } else {
        Ok(())
    }
}

// Adds those of the equations that the content has, each once.
fn add_those_in(
    set: &mut EquationSet,
    content: &EquationSet,
    equations: &[SharedEquation],
) -> Result<(), Memory>
    requires set { IsGrouped set.old }
    requires content { IsGrouped content.now }
    ensures equations { OnOk result (equations_of set.new ≡ fold same.with_equation (equations_of set.old)
        (filter (same.is_in (equations_of content.now)) (map shared_of equations.now))) }
    ensures grouped { OnOk result (IsGrouped set.new) }
{
    for equation in equations {
        add_one(set, content, equation)?;
    }
    Ok(())
}

// Adds what one of the types brings into a content.
fn add_brought(
    set: &mut EquationSet,
    content: &EquationSet,
    found: &[Option<TypeEquations>],
    chosen: &IndexSet<usize>,
    number: usize,
) -> Result<(), Memory>
    requires set { IsGrouped set.old }
    requires content { IsGrouped content.now }
    ensures equations { OnOk result (equations_of set.new ≡ fold same.with_equation (equations_of set.old)
        (contents.brought_by (map made_at found.now) chosen.now.keys (equations_of content.now) number)) }
    ensures grouped { OnOk result (IsGrouped set.new) }
{
    if chosen.contains(&number) {
        add_those_in(set, content, brought_at(found, number))
    } else {
        Ok(())
    }
}

/// A content in order.
pub fn in_order(
    alloc: Global,
    found: &[Option<TypeEquations>],
    among: &[usize],
    content: &[SharedEquation],
    count: usize,
) -> Result<Vec<SharedEquation>, Memory>
    ensures { IfOk result (λ all. map shared_of all.items ≡ contents.in_order count (map made_at found.now) among.now
        (map shared_of content.now)) }
{
    let content = grouped(alloc, content)?;
    let chosen = number_set(alloc, among)?;
    let mut set = EquationSet::new(alloc);
    for number in 0..count {
        add_brought(&mut set, &content, found, &chosen, number)?;
    }
    Ok(set.into_vec())
}
