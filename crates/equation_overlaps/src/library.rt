// Operations of the library's text.

ghost use Rattle.std.specs.Prelude.{◌≡◌, ◌↔◌, IsTrue, codes, map, Some};
ghost use Rattle.std.specs.List.{slice_get};
ghost use Rattle.equation_overlaps.specs.Library.{IsLibraryDeclaration};
ghost use Rattle.spec_core.specs.Numbers.{sort_number};
ghost use Rattle.spec_core.specs.Orthogonality.{IsOfLibrary};
ghost use Rattle.spec_core.specs.Sorts.{OnSome};
ghost use Rattle.spec_core.specs.Theories.{operation_of, theory_of};

use spec_core::equation::DataSpec;
use spec_core::items::{Op, Sort};
use spec_core::name::Name;
use spec_core::signature::{OpDecl, same_sorts};

// Whether a declaration is one of the library's text, with this name and these sorts.
fn is_declared(declaration: &OpDecl, name: &str, args: &[Sort], sort: Sort) -> bool
    ensures { IsTrue result ↔ IsLibraryDeclaration name.now (map sort_number args.now) sort.0 (operation_of declaration.now) }
{
    declaration.place_line == 0
        && declaration.result.0 == sort.0
        && is_text(&declaration.name, name)
        && same_sorts(&declaration.args, args)
}

/// Whether an operation stands in the library's text with this name and these sorts. It takes no memory.
pub fn is_of_library(algebra: &DataSpec, op: Op, name: &str, args: &[Sort], sort: Sort) -> bool
    ensures decides { IsTrue result ↔ IsOfLibrary (theory_of algebra.now) op.0 name.now (map sort_number args.now) sort.0 }
{
    let place = op.0 as usize;
    place < algebra.signature.ops.len()
        && is_declared(&algebra.signature.ops[place], name, args, sort)
}

// Whether a name has this text.
fn is_text(name: &Name, text: &str) -> bool
    ensures { IsTrue result ↔ (name.now ≡ text.now) }
{
    name.as_str() == text
}

/// Whether a sort has this name, letter by letter. It takes no memory.
pub fn is_named(algebra: &DataSpec, sort: Sort, name: &str) -> bool
    ensures decides { IsTrue result ↔ OnSome (slice_get (theory_of algebra.now).sorts sort.0) (λ other. other ≡ name.now) }
{
    let place = sort.0 as usize;
    place < algebra.signature.sorts.len() && is_text(&algebra.signature.sorts[place], name)
}
