// The constant `true` of the sort Bool.

ghost use Rattle.std.specs.Prelude.{◌≡◌, IfOk};
ghost use Rattle.std.specs.List.{slice_get};
ghost use Rattle.spec_core.specs.Theories.{operation_of, operations_of};
ghost use Rattle.sort_overloads.specs.Indexes.{IsIndexOf};
ghost use Rattle.sort_overloads.specs.Views.{context_of};
ghost use Rattle.static_equations.specs.Truths as truths;
ghost use Rattle.static_equations.specs.Views.{truth_of};

use crate::names::is_named;
use sort_overloads::name_index::NameIndex;
use sort_overloads::scope::Scope;
use spec_core::items::{Op, Sort};
use spec_core::memory::Memory;
use spec_core::signature::{OpDecl, Signature};
use std::alloc::Global;

/// A constant.
#[derive(Clone, Copy)]
pub struct Constant {
    /// The operation.
    pub op: Op,
    /// Its sort.
    pub sort: Sort,
}

/// The first constant `true` of a sort named Bool.
pub fn truth(alloc: Global, scope: &Scope, index: &NameIndex) -> Result<Option<Constant>, Memory>
    requires index { IsIndexOf index.now (operations_of scope.now.signature) }
    ensures truth { IfOk result (λ found. truth_of found ≡ truths.truth (context_of scope.now)) }
{
    for number in index.numbers(alloc, "true")? {
        match boolean_constant(&scope.signature, *number) {
            None => {}
            Some(found) => return Ok(Some(found)),
        }
    }
    Ok(None)
}

// The operation of a number, if it is a constant of a sort named Bool.
fn boolean_constant(signature: &Signature, number: u32) -> Option<Constant>
    ensures { truth_of result
        ≡ truths.boolean_constant signature.now.sorts.items number (slice_get (operations_of signature.now) number) }
{
    let place = number as usize;
    if place < signature.ops.len() {
        constant_by(signature, number, &signature.ops[place])
    } else {
        None
    }
}

// An operation of this number, if it is a constant of a sort named Bool.
fn constant_by(signature: &Signature, number: u32, declaration: &OpDecl) -> Option<Constant>
    ensures { truth_of result ≡ truths.constant_by signature.now.sorts.items number (operation_of declaration.now) }
{
    if declaration.args.is_empty() && is_named(&signature.sorts, declaration.result, "Bool") {
        Some(Constant {
            op: Op(number),
            sort: declaration.result,
        })
    } else {
        None
    }
}
