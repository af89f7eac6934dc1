// The equations of the data_specs.

ghost use Rattle.std.specs.Prelude.{◌≡◌, ◌++◌, [], IfOk, OnOk, length, map, slice_index_or, if◌then◌else◌};
ghost use Rattle.std.specs.List.{filter, flat_map};
ghost use Rattle.spec_core.specs.Theories.{equation_of};
ghost use Rattle.type_images.specs.Same.{is_in};
ghost use Rattle.type_images.specs.Groups.{equations_of, IsGrouped};
ghost use Rattle.type_images.specs.Images as images;
ghost use Rattle.type_images.specs.Views.{numbers_of, shared_of};
ghost use Rattle.type_equation_copies.specs.Contents.{no_equations};
ghost use Rattle.type_equation_copies.specs.Views.{made_at};
ghost use Rattle.type_data.specs.Data as data_specs;

use spec_core::equation::Equation;
use spec_core::memory::Memory;
use std::alloc::Global;
use type_equation_copies::equations::{TypeEquations, add_shared, all_at};
use type_images::image::equation_image;
use type_images::numbers::Renumbering;
use type_images::set::{EquationSet, firsts, grouped};
use type_images::shared::SharedEquation;

// Adds the equations of a type, unless it is formal.
fn add_type(
    all: &mut Vec<SharedEquation>,
    found: &[Option<TypeEquations>],
    number: usize,
    is_formal: bool,
) -> Result<(), Memory>
    ensures { OnOk result (map shared_of all.new.items ≡ map shared_of all.old.items
        ++ (if is_formal then [] else (slice_index_or (map made_at found.now) number no_equations).all)) }
{
    if is_formal {
        return Ok(());
    }
    add_shared(all, all_at(found, number))
}

// The equations that the types have which aren't formal.
fn all_of_data(
    alloc: Global,
    found: &[Option<TypeEquations>],
    formal: &[bool],
) -> Result<Vec<SharedEquation>, Memory>
    requires { length formal.now ≡ length found.now }
    ensures { IfOk result (λ all. map shared_of all.items ≡ data_specs.of_data (λ e. e.all) formal.now (map made_at found.now)) }
{
    let mut all = Vec::new(alloc);
    for (number, is_formal) in formal.iter().enumerate() {
        add_type(&mut all, found, number, *is_formal)?;
    }
    Ok(all)
}

// What a type brings in.
fn brought_of(found: &Option<TypeEquations>) -> &[SharedEquation]
    ensures { map shared_of result.now ≡ (made_at found.now).brought }
{
    match found {
        None => &[],
        Some(equations) => &equations.brought,
    }
}

// What the types bring in.
fn all_brought(
    alloc: Global,
    found: &[Option<TypeEquations>],
) -> Result<Vec<SharedEquation>, Memory>
    ensures { IfOk result (λ all. map shared_of all.items ≡ flat_map (λ e. e.brought) (map made_at found.now)) }
{
    let mut all = Vec::new(alloc);
    for one in found {
        add_shared(&mut all, brought_of(one))?;
    }
    Ok(all)
}

// The images of those of the equations that are in a set.
fn images_in(
    alloc: Global,
    news: &Renumbering,
    set: &EquationSet,
    equations: &[SharedEquation],
) -> Result<Vec<Equation>, Memory>
    requires { IsGrouped set.now }
    ensures { IfOk result (λ all. map equation_of all.items ≡ map (images.equation_image (numbers_of news.now))
        (filter (is_in (equations_of set.now)) (map shared_of equations.now))) }
{
    let mut all = Vec::new(alloc);
    for equation in equations {
        if set.has(equation.get()) {
            all.push(equation_image(alloc, news, equation.get())?)?;
        }
    }
    Ok(all)
}

/// The equations of the data, under new numbers of sorts and operations.
pub fn data_equations(
    alloc: Global,
    found: &[Option<TypeEquations>],
    formal: &[bool],
    news: &Renumbering,
) -> Result<Vec<Equation>, Memory>
    requires { length formal.now ≡ length found.now }
    ensures { IfOk result (λ all. map equation_of all.items ≡ map (images.equation_image (numbers_of news.now))
        (data_specs.equations_in formal.now (map made_at found.now))) }
{
    let content = grouped(alloc, &all_of_data(alloc, found, formal)?)?;
    let all = firsts(alloc, &all_brought(alloc, found)?)?.into_vec();
    images_in(alloc, news, &content, &all)
}
