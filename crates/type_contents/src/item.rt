// Sorts and operations.

ghost use Rattle.std.specs.Prelude.{◌≡◌, IfOk, map, string_bytes};
ghost use Rattle.std.specs.Str.{bytes_eq};
ghost use Rattle.type_contents.specs.Items.{small, is_same_item, has_same_name};
ghost use Rattle.type_contents.specs.Views.{item_of};

use crate::item_kind::ItemKind;
use lotos_ast::token::Token;
use spec_core::memory::Memory;
use std::alloc::Global;

/// A sort or an operation, with names in small letters.
#[derive(PartialEq, Eq, Hash, Drop)]
pub struct Item {
    /// What it is.
    pub kind: ItemKind,
    /// Its name.
    pub name: String,
    /// Of an operation: the sorts of its arguments, and then that of its result.
    pub sorts: Vec<String>,
}

/// A name in small letters.
pub fn small(alloc: Global, name: &Token) -> Result<String, Memory>
    ensures { IfOk result (λ text. string_bytes text ≡ small name.now) }
{
    Ok(name.text.as_str().to_ascii_lowercase(alloc)?)
}

/// Whether two names are one. It takes no memory.
pub fn is_same_text(left: &str, right: &str) -> bool
    ensures { result ≡ bytes_eq left.now right.now }
{
    left == right
}

impl Item {
    /// Whether two items are one. It takes no memory.
    pub fn is_same(&self, other: &Item) -> bool
        ensures { result ≡ is_same_item (item_of self.now) (item_of other.now) }
    {
        self == other
    }

    /// Whether two items have one kind and one name, whatever their sorts. It takes no memory.
    pub fn has_same_name(&self, other: &Item) -> bool
        ensures { result ≡ has_same_name (item_of self.now) (item_of other.now) }
    {
        self.kind.is_same(other.kind) && self.name.as_str() == other.name.as_str()
    }
}
