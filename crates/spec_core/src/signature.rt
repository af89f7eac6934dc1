// Signatures: the sorts and operations of data.

ghost use Rattle.std.specs.Prelude.{◌≡◌, ◌↔◌, ◌<◌, ◌^◌, IsTrue, IfOk, IfSome, IfNone, map, vec_len};
ghost use Rattle.spec_core.specs.Lists.{Each};
ghost use Rattle.spec_core.specs.Names.{IsSameName};
ghost use Rattle.spec_core.specs.Numbers.{sort_number};
ghost use Rattle.spec_core.specs.Signatures.{IsSortNamed, IsDeclaredAs, IsOperationAt};
ghost use Rattle.spec_core.specs.Theories.{operation_of, operations_of};

use crate::items::{Op, Sort};
use crate::memory::Memory;
use crate::name::Name;
use crate::names::copy_names;
use std::alloc::Global;

/// A declared operation.
#[derive(Drop)]
pub struct OpDecl {
    /// Its name in its declaration's spelling, with the underscores of an infix operation.
    pub name: Name,
    /// The sorts of its arguments.
    pub args: Vec<Sort>,
    /// The sort of its results.
    pub result: Sort,
    /// Whether the declaration marks it as a constructor.
    pub marked: bool,
    /// The line of its declaration, from 1; 0 in the library's text.
    pub place_line: u32,
    /// The column of its declaration in bytes, from 1.
    pub place_column: u32,
}

/// The sorts' names and the operations, each in the order of its numbers.
#[derive(Drop)]
pub struct Signature {
    pub sorts: Vec<Name>,
    pub ops: Vec<OpDecl>,
}

impl OpDecl {
    /// Whether the declaration has this name, letters of ASCII without case, these argument sorts and this result sort.
    fn is_declared_as(&self, name: &str, args: &[Sort], sort: Sort) -> bool
        ensures { IsTrue result ↔ IsDeclaredAs name.now (map sort_number args.now) sort.0 (operation_of self.now) }
    {
        self.name.as_str().eq_ignore_ascii_case(name)
            && same_sorts(&self.args, args)
            && self.result.0 == sort.0
    }

    /// An equal declaration.
    pub fn copy(&self, alloc: Global) -> Result<OpDecl, Memory>
        ensures equal { IfOk result (λ d. operation_of d ≡ operation_of self.now) }
    {
        Ok(OpDecl {
            name: self.name.copy(alloc)?,
            args: Vec::from_slice(alloc, &self.args)?,
            result: self.result,
            marked: self.marked,
            place_line: self.place_line,
            place_column: self.place_column,
        })
    }
}

impl Signature {
    /// The sort of this name, letters of ASCII without case. It takes no memory.
    pub fn sort(&self, name: &str) -> Option<Sort>
        requires few { vec_len self.now.sorts < 2 ^ 32 }
        ensures named { IfSome result (λ sort. IsSortNamed self.now.sorts.items name.now sort.0) }
        ensures none { IfNone result (Each (λ other. IsSameName other name.now → ⊥) self.now.sorts.items) }
    {
        for (i, other) in self.sorts.iter().enumerate() {
            if other.as_str().eq_ignore_ascii_case(name) {
                return Some(Sort(i as u32));
            }
        }
        None
    }

    /// The operation with this name, letters of ASCII without case, these argument sorts and this result sort. It takes no
    /// memory.
    pub fn op(&self, name: &str, args: &[Sort], sort: Sort) -> Option<Op>
        requires few { vec_len self.now.ops < 2 ^ 32 }
        ensures declared { IfSome result (λ op. IsOperationAt (operations_of self.now) op.0 name.now (map sort_number args.now) sort.0) }
        ensures none { IfNone result (Each (λ d. IsDeclaredAs name.now (map sort_number args.now) sort.0 d → ⊥) (operations_of self.now)) }
    {
        for (i, declaration) in self.ops.iter().enumerate() {
            if declaration.is_declared_as(name, args, sort) {
                return Some(Op(i as u32));
            }
        }
        None
    }

    /// An equal signature.
    pub fn copy(&self, alloc: Global) -> Result<Signature, Memory>
        ensures sorts { IfOk result (λ s. s.sorts.items ≡ self.now.sorts.items) }
        ensures operations { IfOk result (λ s. operations_of s ≡ operations_of self.now) }
    {
        Ok(Signature {
            sorts: copy_names(alloc, &self.sorts)?,
            ops: copy_declarations(alloc, &self.ops)?,
        })
    }
}

// Equal declarations.
fn copy_declarations(alloc: Global, declarations: &[OpDecl]) -> Result<Vec<OpDecl>, Memory>
    ensures { IfOk result (λ all. map operation_of all.items ≡ map operation_of declarations.now) }
{
    let mut all = Vec::new(alloc);
    for declaration in declarations {
        all.push(declaration.copy(alloc)?)?;
    }
    Ok(all)
}

/// Whether two lists of sorts are equal. It takes no memory.
pub fn same_sorts(left: &[Sort], right: &[Sort]) -> bool
    ensures decides { IsTrue result ↔ (map sort_number left.now ≡ map sort_number right.now) }
{
    match left {
        [] => right.is_empty(),
        [first, rest @ ..] => match right {
            [] => false,
            [other, others @ ..] => first.0 == other.0 && same_sorts(rest, others),
        },
    }
}
