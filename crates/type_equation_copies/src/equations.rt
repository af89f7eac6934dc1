// The equations of types, as far as they are found.

ghost use Rattle.std.specs.Prelude.{◌≡◌, ◌++◌, OnOk, IfOk, None, map, slice_index_or};
ghost use Rattle.std.specs.List.{flat_map};
ghost use Rattle.spec_core.specs.Theories.{equation_of};
ghost use Rattle.type_images.specs.Images.{equation_image};
ghost use Rattle.type_images.specs.Views.{numbers_of, shared_of};
ghost use Rattle.type_equation_copies.specs.Contents as contents;
ghost use Rattle.type_equation_copies.specs.Views.{made_at};

use spec_core::equation::Equation;
use spec_core::memory::Memory;
use std::alloc::Global;
use type_images::image::equation_image;
use type_images::numbers::Renumbering;
use type_images::same::is_same_equation;
use type_images::shared::SharedEquation;

/// The equations of a type.
#[derive(Drop)]
pub struct TypeEquations {
    /// Those that it has, each once.
    pub all: Vec<SharedEquation>,
    /// Those that it brings in.
    pub brought: Vec<SharedEquation>,
}

/// Those that the type of a number has, as far as they are found. It takes no memory.
pub fn all_at(found: &[Option<TypeEquations>], number: usize) -> &[SharedEquation]
    ensures { map shared_of result.now ≡ (slice_index_or (map made_at found.now) number contents.no_equations).all }
{
    if number < found.len() {
        match &found[number] {
            None => &[],
            Some(equations) => &equations.all,
        }
    } else {
        &[]
    }
}

/// Those that the type of a number brings in, as far as they are found. It takes no memory.
pub fn brought_at(found: &[Option<TypeEquations>], number: usize) -> &[SharedEquation]
    ensures { map shared_of result.now ≡ (slice_index_or (map made_at found.now) number contents.no_equations).brought }
{
    if number < found.len() {
        match &found[number] {
            None => &[],
            Some(equations) => &equations.brought,
        }
    } else {
        &[]
    }
}

/// Adds equations, which are shared.
pub fn add_shared(all: &mut Vec<SharedEquation>, more: &[SharedEquation]) -> Result<(), Memory>
    ensures { OnOk result (map shared_of all.new.items ≡ map shared_of all.old.items ++ map shared_of more.now) }
{
    for equation in more {
        all.push(equation.share()?)?;
    }
    Ok(())
}

/// Equal equations, in the same order.
pub fn shared(alloc: Global, equations: &[Equation]) -> Result<Vec<SharedEquation>, Memory>
    ensures { IfOk result (λ all. map shared_of all.items ≡ map equation_of equations.now) }
{
    let mut all = Vec::new(alloc);
    for equation in equations {
        all.push(SharedEquation::new(alloc, equation.copy(alloc)?)?)?;
    }
    Ok(all)
}

/// Adds the images of equations.
pub fn add_images(
    alloc: Global,
    all: &mut Vec<SharedEquation>,
    news: &Renumbering,
    equations: &[SharedEquation],
) -> Result<(), Memory>
    ensures { OnOk result (map shared_of all.new.items ≡ map shared_of all.old.items
        ++ map (equation_image (numbers_of news.now)) (map shared_of equations.now)) }
{
    for equation in equations {
        all.push(SharedEquation::new(alloc, equation_image(alloc, news, equation.get())?)?)?;
    }
    Ok(())
}

// Adds the image of an equation, where it is another equation.
fn add_new_image(
    alloc: Global,
    all: &mut Vec<SharedEquation>,
    news: &Renumbering,
    equation: &Equation,
) -> Result<(), Memory>
    ensures { OnOk result (map shared_of all.new.items ≡ map shared_of all.old.items
        ++ contents.new_image (numbers_of news.now) (equation_of equation.now)) }
{
    let image = equation_image(alloc, news, equation)?;
    if is_same_equation(&image, equation) {
        return Ok(());
    }
    all.push(SharedEquation::new(alloc, image)?)?;
    Ok(())
}

/// The images of equations, where they are other equations.
pub fn new_images(
    alloc: Global,
    news: &Renumbering,
    equations: &[SharedEquation],
) -> Result<Vec<SharedEquation>, Memory>
    ensures { IfOk result (λ all. map shared_of all.items ≡ flat_map (contents.new_image (numbers_of news.now))
        (map shared_of equations.now)) }
{
    let mut all = Vec::new(alloc);
    for equation in equations {
        add_new_image(alloc, &mut all, news, equation.get())?;
    }
    Ok(all)
}
