// The numbers of types by name.

ghost use Rattle.std.specs.Prelude.{◌≡◌, ℕ, List, IfOk, OnOk, if◌then◌else◌};
ghost use Rattle.std.specs.Str.{bytes_eq};
ghost use Rattle.lotos_ast.specs.declared.types.TypeDef.{TypeDef};
ghost use Rattle.type_contents.specs.Items.{small};
ghost use Rattle.type_contents.specs.TypeIndexes.{number_at, IsTypeIndexOf};
ghost use Rattle.type_contents.specs.Uses.{is_called, number_of};

use crate::item::small;
use indexmap::IndexMap;
use lotos_ast::token::Token;
use lotos_ast::types::TypeDef;
use spec_core::memory::Memory;
use std::alloc::Global;

/// The numbers of types by name; of those of one name the first.
#[derive(Drop)]
pub struct TypeIndex {
    // by names in small letters
    numbers: IndexMap<String, usize>,
    // how many types there are
    count: usize,
}

impl TypeIndex {
    // Puts a number under a name, in place of the one that is there.
    fn put_name(&mut self, alloc: Global, number: usize, name: &Token) -> Result<(), Memory>
        ensures numbers { OnOk result ((other : List ℕ) → number_at self.new other
            ≡ (if bytes_eq (small name.now) other then number else number_at self.old other)) }
        ensures count { self.new.count ≡ self.old.count }
    {
        let text = small(alloc, name)?;
        self.numbers.insert(text, number)?;
        Ok(())
    }

    // Puts a type in, in place of the one of its name that is there.
    fn put(&mut self, alloc: Global, number: usize, definition: &TypeDef) -> Result<(), Memory>
        ensures numbers { OnOk result ((name : List ℕ) → number_at self.new name
            ≡ (if is_called name definition.now then number else number_at self.old name)) }
        ensures count { self.new.count ≡ self.old.count }
    {
        match definition {
            TypeDef::Library { place: _, names: _ } => Ok(()),
            TypeDef::Definition {
                place: _,
                name,
                body: _,
            } => self.put_name(alloc, number, name),
        }
    }

    /// The index of these types.
    pub fn of(alloc: Global, types: &[TypeDef]) -> Result<TypeIndex, Memory>
        ensures { IfOk result (λ index. IsTypeIndexOf index types.now) }
    {
        let mut index = TypeIndex {
            numbers: IndexMap::new(alloc),
            count: types.len(),
        };
        for behind in 0..types.len() {
            let number = types.len() - 1 - behind;
            index.put(alloc, number, &types[number])?;
        }
        Ok(index)
    }

    // The number under a name in small letters; how many types there are where there is none.
    fn number_under(&self, text: &str) -> usize
        ensures { result ≡ number_at self.now text.now }
    {
        match self.numbers.get(text) {
            None => self.count,
            Some(number) => *number,
        }
    }

    /// The number of the first type of this name, from 0; their number where there is none.
    pub fn number(&self, alloc: Global, name: &Token) -> Result<usize, Memory>
        ensures { IfOk result (λ n. (types : List TypeDef) → IsTypeIndexOf self.now types → n ≡ number_of types name.now) }
    {
        let text = small(alloc, name)?;
        Ok(self.number_under(text.as_str()))
    }
}
