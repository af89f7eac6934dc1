// Parts of the grammar that stand several times in a row.

ghost use Rattle.std.specs.Prelude.{◌≡◌, ◌≤◌, ◌<◌, IfOk, OnOk, IfErr, length, map};
ghost use Rattle.lotos_ast.specs.declared.mark.Mark.{Mark};
ghost use Rattle.lotos_ast.specs.Notation.{Syntax, presence, quoted, optional, repeated, reduced, list, loose_list, ◌▸◌};
ghost use Rattle.lotos_ast.specs.Reads.{Tree, Reads, unkept};
ghost use Rattle.lotos_ast.specs.Begins.{mark_at, starts};
ghost use Rattle.lotos_ast.specs.ListTrees.{repeated_tree, list_tree, behind};
ghost use Rattle.lotos_ast.specs.Nesting.{nesting_of};
ghost use Rattle.syntax_cursor.specs.Parsers.{Halts};

use crate::cursor::Cursor;
use crate::parse_fault::ParseFault;
use lotos_ast::mark::Mark;
use lotos_ast::nest::Nest;
use std::marker::PhantomData;

/// A part of the grammar that isn't empty.
pub trait Item {
    /// What is made of it.
    type Output: Drop;

    // The part.
    ghost syntax: { Syntax };

    // The tree that stands for it.
    ghost tree: { Self.Output → Tree };

    /// Whether the part begins with the next token. It takes no memory.
    fn begins(cursor: &Cursor<'_>) -> bool
        ensures { result ≡ starts syntax (mark_at cursor.now) };

    /// Reads the part.
    fn read(cursor: &mut Cursor<'_>, nest: Nest) -> Result<Self::Output, ParseFault>
        ensures read { IfOk result (λ x. Reads (nesting_of nest) syntax cursor.old (tree x) cursor.new) }
        ensures halts { IfErr result (λ e. Halts e (nesting_of nest) syntax cursor.old cursor.new) }
        ensures fewer { OnOk result (length cursor.new < length cursor.old) };
}

/// An item behind a comma.
pub struct AfterComma<I>(PhantomData<I>);

impl<I: Item> Item for AfterComma<I> {
    type Output = I::Output;

    ghost syntax = { quoted Mark.Comma ▸ I.syntax };

    ghost tree = { λ x. behind (I.tree x) };

    fn begins(cursor: &Cursor<'_>) -> bool {
        cursor.at(Mark::Comma)
    }

    fn read(cursor: &mut Cursor<'_>, nest: Nest) -> Result<I::Output, ParseFault> {
        cursor.pass(nest, Mark::Comma)?;
        I::read(cursor, nest)
    }
}

/// An item behind a comma that may be left out.
pub struct AfterOptionalComma<I>(PhantomData<I>);

impl<I: Item> Item for AfterOptionalComma<I> {
    type Output = I::Output;

    ghost syntax = { reduced presence (optional (quoted Mark.Comma)) ▸ I.syntax };

    ghost tree = { λ x. behind (I.tree x) };

    fn begins(cursor: &Cursor<'_>) -> bool {
        cursor.at(Mark::Comma) || I::begins(cursor)
    }

    fn read(cursor: &mut Cursor<'_>, nest: Nest) -> Result<I::Output, ParseFault> {
        cursor.optional_comma(nest)?;
        I::read(cursor, nest)
    }
}

impl<'a> Cursor<'a> {
    // Passes over a comma, where one stands.
    fn optional_comma(&mut self, nest: Nest) -> Result<(), ParseFault>
        ensures read { OnOk result (Reads (nesting_of nest) (reduced presence (optional (quoted Mark.Comma))) self.old unkept self.new) }
        ensures halts { IfErr result (λ e. Halts e (nesting_of nest) (reduced presence (optional (quoted Mark.Comma))) self.old self.new) }
        ensures no_more { OnOk result (length self.new ≤ length self.old) }
    {
        if self.at(Mark::Comma) {
            self.pass(nest, Mark::Comma)?;
        }
        Ok(())
    }

    /// Reads an item any number of times.
    #[tactic(auto, using(crate::proofs::Loops::loop_steps))]
    pub fn repeated<I: Item>(&mut self, nest: Nest) -> Result<Vec<I::Output>, ParseFault>
        ensures read { IfOk result (λ all. Reads (nesting_of nest) (repeated I.syntax) self.old
            (repeated_tree (map I.tree all.items)) self.new) }
        ensures halts { IfErr result (λ e. Halts e (nesting_of nest) (repeated I.syntax) self.old self.new) }
        ensures no_more { OnOk result (length self.new ≤ length self.old) }
    {
        let mut all = Vec::new(self.alloc());
        'items: while I::begins(self) {
            let next = I::read(self, nest)?;
            all.push(next)?;
        }
        Ok(all)
    }

    /// Reads an item any number of times, each behind a comma.
    #[tactic(auto, using(crate::proofs::Loops::loop_steps))]
    pub fn after_commas<I: Item>(&mut self, nest: Nest) -> Result<Vec<I::Output>, ParseFault>
        ensures read { IfOk result (λ all. Reads (nesting_of nest) (repeated (quoted Mark.Comma ▸ I.syntax)) self.old
            (repeated_tree (map behind (map I.tree all.items))) self.new) }
        ensures halts { IfErr result (λ e. Halts e (nesting_of nest) (repeated (quoted Mark.Comma ▸ I.syntax)) self.old self.new) }
        ensures no_more { OnOk result (length self.new ≤ length self.old) }
    {
        let all = self.repeated::<AfterComma<I>>(nest)?;
        Ok(all)
    }

    // Reads an item any number of times, each behind a comma that may be left out.
    #[tactic(auto, using(crate::proofs::Loops::loop_steps))]
    fn after_optional_commas<I: Item>(&mut self, nest: Nest) -> Result<Vec<I::Output>, ParseFault>
        ensures read { IfOk result (λ all.
            Reads (nesting_of nest) (repeated (reduced presence (optional (quoted Mark.Comma)) ▸ I.syntax)) self.old
            (repeated_tree (map behind (map I.tree all.items))) self.new) }
        ensures halts { IfErr result (λ e.
            Halts e (nesting_of nest) (repeated (reduced presence (optional (quoted Mark.Comma)) ▸ I.syntax)) self.old self.new) }
        ensures no_more { OnOk result (length self.new ≤ length self.old) }
    {
        let all = self.repeated::<AfterOptionalComma<I>>(nest)?;
        Ok(all)
    }

    /// Reads one item or more, with commas between them.
    #[tactic(auto, using(crate::proofs::Loops::loop_steps))]
    pub fn list<I: Item>(&mut self, nest: Nest) -> Result<Vec<I::Output>, ParseFault>
        ensures read { IfOk result (λ all. Reads (nesting_of nest) (list I.syntax) self.old (list_tree (map I.tree all.items)) self.new) }
        ensures halts { IfErr result (λ e. Halts e (nesting_of nest) (list I.syntax) self.old self.new) }
        ensures fewer { OnOk result (length self.new < length self.old) }
    {
        let first = I::read(self, nest)?;
        let mut all = self.after_commas::<I>(nest)?;
        all.insert(0, first)?;
        Ok(all)
    }

    /// Reads one item or more. A comma between two of them may be left out.
    #[tactic(auto, using(crate::proofs::Loops::loop_steps))]
    pub fn loose_list<I: Item>(&mut self, nest: Nest) -> Result<Vec<I::Output>, ParseFault>
        ensures read { IfOk result (λ all. Reads (nesting_of nest) (loose_list I.syntax) self.old
            (list_tree (map I.tree all.items)) self.new) }
        ensures halts { IfErr result (λ e. Halts e (nesting_of nest) (loose_list I.syntax) self.old self.new) }
        ensures fewer { OnOk result (length self.new < length self.old) }
    {
        let first = I::read(self, nest)?;
        let mut all = self.after_optional_commas::<I>(nest)?;
        all.insert(0, first)?;
        Ok(all)
    }
}
