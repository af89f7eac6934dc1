// What texts are read as.

use behaviour_parser::specification;
use data_parser::types;
use flattening::flatten::flatten;
use library_text::{boolean, natural};
use lotos_ast::spec::Spec;
use lotos_ast::types::TypeDef;
use lotos_lexer::tokens;
use spec_core::equation::DataSpec;
use spec_core::memory::Memory;
use static_presentation::presentation;
use std::alloc::Global;

// Adds the types of a text, which are none where it is empty.
fn add_types(alloc: Global, all: &mut Vec<TypeDef>, text: &str) -> Result<(), Memory> {
    let Ok(found) = tokens(alloc, text.as_bytes()) else {
        return Err(Memory);
    };
    let Ok((trees, _)) = types(alloc, &found, 0) else {
        return Err(Memory);
    };
    for tree in trees {
        all.push(tree)?;
    }
    Ok(())
}

/// The data of these types, behind the types of the library where it is taken in. Types that are refused stop the test.
pub fn data(alloc: Global, with_library: bool, text: &str) -> Result<DataSpec, Memory> {
    let mut all = Vec::new(alloc);
    if with_library {
        add_types(alloc, &mut all, boolean())?;
        add_types(alloc, &mut all, natural())?;
    }
    add_types(alloc, &mut all, text)?;
    let Ok(flat) = flatten(alloc, &all) else {
        return Err(Memory);
    };
    let Ok(found) = presentation(alloc, &all, &flat) else {
        return Err(Memory);
    };
    Ok(found)
}

/// The specification that a text is. A text that is refused stops the test.
pub fn parsed(alloc: Global, text: &str) -> Result<Spec, Memory> {
    let Ok(found) = tokens(alloc, text.as_bytes()) else {
        return Err(Memory);
    };
    let Ok(spec) = specification(alloc, &found) else {
        return Err(Memory);
    };
    Ok(spec)
}
