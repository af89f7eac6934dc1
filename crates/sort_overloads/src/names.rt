// What a name alone stands for.

ghost use Rattle.std.specs.Prelude.{◌≡◌, ◌<◌, ◌^◌, [], None, Some, IfOk, map, vec_len};
ghost use Rattle.spec_core.specs.Theories.{operations_of};
ghost use Rattle.sort_overloads.specs.Indexes.{IsIndexOf};
ghost use Rattle.sort_overloads.specs.Listed.{StandsFor, is_same_name, last_variable, name_readings, of_operations};
ghost use Rattle.sort_overloads.specs.Tables.{reading_of, found_of};

use crate::name_index::NameIndex;
use crate::operations::operation_readings;
use crate::scope::Scope;
use crate::table::{Reading, Root};
use spec_core::items::Sort;
use spec_core::memory::Memory;
use spec_core::name::Name;
use std::alloc::Global;

/// The variable of this name, or else the constants.
pub fn named_readings(
    alloc: Global,
    scope: &Scope,
    index: &NameIndex,
    name: &str,
) -> Result<Vec<Reading>, Memory>
    requires few { vec_len scope.now.signature.ops < 2 ^ 32 }
    requires index { IsIndexOf index.now (operations_of scope.now.signature) }
    ensures stands { IfOk result (λ all. StandsFor
        (name_readings (last_variable name.now None 0 scope.now.vars)
        (of_operations name.now [] 0 (operations_of scope.now.signature)))
        (map (reading_of []) all.items)) }
{
    match scope.vars.last_named(alloc, name)? {
        None => operation_readings(alloc, &scope.signature, index, name, &[]),
        Some((variable, sort)) => only_variable(alloc, variable, sort),
    }
}

// The variable alone.
fn only_variable(alloc: Global, variable: u32, sort: Sort) -> Result<Vec<Reading>, Memory>
    ensures { IfOk result (λ all. map (reading_of []) all.items ≡ name_readings (found_of (Some (variable, sort))) []) }
{
    let mut all = Vec::new(alloc);
    all.push(Reading {
        root: Root::Variable(variable),
        sort,
    })?;
    Ok(all)
}

/// Whether a name is this one, letters of ASCII without case.
pub fn has_name(other: &Name, name: &str) -> bool
    ensures { result ≡ is_same_name other.now name.now }
{
    other.as_str().eq_ignore_ascii_case(name)
}
