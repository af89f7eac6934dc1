// What types have, by numbers in a table of items.

ghost use Rattle.std.specs.Prelude.{◌≡◌, ◌++◌, ◌≤◌, None, IfOk, length, slice_index_or};
ghost use Rattle.std.specs.List.{flat_map};
ghost use Rattle.std.specs.Str.{bytes_eq};
ghost use Rattle.type_contents.specs.Items.{small};
ghost use Rattle.type_contents.specs.Uses.{is_called, number_of};
ghost use Rattle.type_contents.specs.Views.{made_items, made_formals, item_numbers, formal_numbers};

use lotos_ast::token::Token;
use lotos_ast::types::TypeDef;
use spec_core::memory::Memory;
use std::alloc::Global;

/// What a type has: numbers in a table of items.
#[derive(Drop)]
pub struct Numbers {
    /// Of all that it has, each once.
    pub items: Vec<usize>,
    /// Of what is left open in it, each once.
    pub formals: Vec<usize>,
}

/// Whether two names are one. It takes no memory.
pub fn is_same_name(left: &Token, right: &Token) -> bool
    ensures { result ≡ bytes_eq (small left.now) (small right.now) }
{
    left.text.as_str().eq_ignore_ascii_case(right.text.as_str())
}

/// Whether a type has this name. It takes no memory.
pub fn is_called(definition: &TypeDef, name: &Token) -> bool
    ensures { result ≡ is_called (small name.now) definition.now }
{
    match definition {
        TypeDef::Library { place: _, names: _ } => false,
        TypeDef::Definition {
            place: _,
            name: own,
            body: _,
        } => is_same_name(own, name),
    }
}

/// The number of the first type of this name, from 0; their number where there is none. It takes no memory.
pub fn number_of(types: &[TypeDef], name: &Token) -> usize
    ensures number { result ≡ number_of types.now name.now }
    ensures bound { result ≤ length types.now }
{
    for (i, definition) in types.iter().enumerate() {
        if is_called(definition, name) {
            return i;
        }
    }
    types.len()
}

/// The numbers of all that a type has; none where it isn't made yet. It takes no memory.
pub fn made_items(made: &[Option<Numbers>], number: usize) -> &[usize]
    ensures { result.now ≡ made_items (slice_index_or made.now number None) }
{
    if number < made.len() {
        match &made[number] {
            None => &[],
            Some(numbers) => &numbers.items,
        }
    } else {
        &[]
    }
}

/// The numbers of what is left open in a type; none where it isn't made yet. It takes no memory.
pub fn made_formals(made: &[Option<Numbers>], number: usize) -> &[usize]
    ensures { result.now ≡ made_formals (slice_index_or made.now number None) }
{
    if number < made.len() {
        match &made[number] {
            None => &[],
            Some(numbers) => &numbers.formals,
        }
    } else {
        &[]
    }
}

/// The numbers of all that the types of these numbers have.
pub fn items_of_all(
    alloc: Global,
    made: &[Option<Numbers>],
    linked: &[usize],
) -> Result<Vec<usize>, Memory>
    ensures { IfOk result (λ all. all.items ≡ flat_map (item_numbers made.now) linked.now) }
{
    let mut all = Vec::new(alloc);
    for number in linked {
        all.extend_from_slice(made_items(made, *number))?;
    }
    Ok(all)
}

/// The numbers of what is left open in the types of these numbers.
pub fn formals_of_all(
    alloc: Global,
    made: &[Option<Numbers>],
    linked: &[usize],
) -> Result<Vec<usize>, Memory>
    ensures { IfOk result (λ all. all.items ≡ flat_map (formal_numbers made.now) linked.now) }
{
    let mut all = Vec::new(alloc);
    for number in linked {
        all.extend_from_slice(made_formals(made, *number))?;
    }
    Ok(all)
}
