// How deep a token is nested.

ghost use Rattle.std.specs.Prelude.{◌≡◌, IfOk};
ghost use Rattle.lotos_ast.specs.Nesting.{outermost, in_bracket, in_construct, is_within, nesting_of};

use spec_core::memory::Memory;

/// The brackets that are open, and the constructs that stand round a token.
#[derive(Clone, Copy, Debug)]
pub struct Nest {
    brackets: u64,
    constructs: u64,
}

impl Nest {
    /// Round a text's first token there is nothing. It takes no memory.
    pub fn outermost() -> Nest
        ensures { nesting_of result ≡ outermost }
    {
        Nest {
            brackets: 0,
            constructs: 0,
        }
    }

    /// One open bracket more, which is a construct too. A text of so many that they can't be counted has no place in memory.
    pub fn bracket(self) -> Result<Nest, Memory>
        ensures { IfOk result (λ nest. nesting_of nest ≡ in_bracket (nesting_of self)) }
    {
        let brackets = self.brackets.checked_add(1).ok_or(Memory)?;
        let constructs = self.constructs.checked_add(1).ok_or(Memory)?;
        Ok(Nest {
            brackets,
            constructs,
        })
    }

    /// One construct more.
    pub fn construct(self) -> Result<Nest, Memory>
        ensures { IfOk result (λ nest. nesting_of nest ≡ in_construct (nesting_of self)) }
    {
        let constructs = self.constructs.checked_add(1).ok_or(Memory)?;
        Ok(Nest {
            brackets: self.brackets,
            constructs,
        })
    }

    /// Whether a token may be nested so deep. It takes no memory.
    pub fn is_within(self) -> bool
        ensures { result ≡ is_within (nesting_of self) }
    {
        self.brackets <= 256 && self.constructs <= 4096
    }
}
