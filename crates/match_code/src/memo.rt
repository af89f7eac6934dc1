// Calls whose values are known.

ghost use Rattle.std.specs.Prelude.{◌≡◌, ◌++◌, ◌∷◌, [], List, IfSome, IsTrue, OnOk, reverse};
ghost use Rattle.spec_core.specs.Lists.{Each};
ghost use Rattle.spec_core.specs.Theories.{Theory};
ghost use Rattle.value_nodes.specs.declared.node.Node.{Node};
ghost use Rattle.match_code.specs.Entries.{IsEntry, IsRemembered};

use crate::hints::{Hints, mark_of};
use rewriter::values::Values;
use spec_core::items::Op;
use spec_core::memory::Memory;
use std::alloc::{AllocError, Global};

/// The most calls that are remembered.
pub const MOST_ENTRIES: u32 = 65_536;

/// How many calls of an operation may be looked for in vain in an evaluation before it is given up.
const PATIENCE: u32 = 4_096;

/// How many more may be for each one that is found.
const REWARD: u32 = 16;

/// How many calls of an operation that was given up are looked for where it is tried again.
const TRIAL: u32 = 64;

/// A call of an operation over values, the value that it comes to, and after how many uses of equations.
#[derive(Drop)]
pub struct Entry {
    pub op: Op,
    pub args: Values,
    pub value: u32,
    pub uses: u64,
}

/// What a call comes to: the node of a value, after so many uses of equations.
#[derive(Clone, Copy)]
pub struct Known {
    pub value: u32,
    pub uses: u64,
}

/// Calls that are remembered.
#[derive(Drop)]
pub struct Memo {
    pub entries: Vec<Entry>,
    hints: Hints,
    /// How many more calls may be taken up to be remembered.
    room: u32,
    /// For each operation how many more of its calls may be looked for in vain; as many as at first where it has no place yet.
    patience: Vec<u32>,
}

// Whether an entry is of this call.
fn is_of(entry: &Entry, op: Op, args: &[u32]) -> bool
    ensures same { IsTrue result → (entry.now.op.0 ≡ op.0) × (reverse entry.now.args ≡ args.now) }
{
    entry.op.0 == op.0 && entry.args.all() == args
}

// Gives the operations up to this place as much patience as at first.
fn lengthen(patience: &mut Vec<u32>, place: usize) -> Result<(), AllocError> {
    for _more in patience.len()..=place {
        patience.push(PATIENCE)?;
    }
    Ok(())
}

impl Memo {
    /// No calls. It takes no memory.
    pub fn new(alloc: Global) -> Memo
        ensures none { result.entries.items ≡ [] }
    {
        Memo {
            entries: Vec::new(alloc),
            hints: Hints::new(alloc),
            room: MOST_ENTRIES,
            patience: Vec::new(alloc),
        }
    }

    /// No calls, and room for none until they are opened. It takes no memory.
    pub fn closed(alloc: Global) -> Memo
        ensures none { result.entries.items ≡ [] }
    {
        Memo {
            entries: Vec::new(alloc),
            hints: Hints::new(alloc),
            room: 0,
            patience: Vec::new(alloc),
        }
    }

    // Whether there are no calls, and no room for one.
    fn is_closed(&self) -> bool {
        self.room == 0 && self.entries.is_empty()
    }

    /// What a call comes to, if it is remembered and found, and its operation isn't given up. It takes no memory.
    pub fn find(&mut self, op: Op, args: &[u32]) -> Option<Known>
        ensures same { self.new.entries ≡ self.old.entries }
        ensures known { IfSome result (λ k. (theory : Theory) (rows : List Node) →
            Each (IsEntry theory rows) self.old.entries.items → IsRemembered theory rows op.0 args.now k.value k.uses) }
    {
        if self.is_closed() || !self.may_pay(op) {
            return None;
        }
        let known = self.found(op, args);
        if known.is_some() {
            self.reward(op);
        }
        known
    }

    // What a call comes to, if it is remembered and found.
    fn found(&self, op: Op, args: &[u32]) -> Option<Known>
        ensures known { IfSome result (λ k. (theory : Theory) (rows : List Node) →
            Each (IsEntry theory rows) self.now.entries.items → IsRemembered theory rows op.0 args.now k.value k.uses) }
    {
        let mark = mark_of(op, args);
        match self.looked_up(self.hints.first(mark), op, args) {
            Some(known) => Some(known),
            None => self.looked_up(self.hints.second(mark), op, args),
        }
    }

    // Whether the operation isn't given up.
    fn may_pay(&self, op: Op) -> bool {
        let place = op.0 as usize;
        place >= self.patience.len() || self.patience[place] > 0
    }

    /// Has room for calls, where there was none and there are no calls. It takes no memory.
    pub fn open(&mut self)
        ensures same { self.new.entries ≡ self.old.entries }
    {
        if self.is_closed() {
            self.room = MOST_ENTRIES;
        }
    }

    /// Tries each operation that was given up again. It takes no memory.
    pub fn try_again(&mut self)
        ensures same { self.new.entries ≡ self.old.entries }
    {
        for left in &mut self.patience {
            *left = (*left).max(TRIAL);
        }
    }

    /// Gives each operation as much patience as at first. It takes no memory.
    pub fn calm(&mut self)
        ensures same { self.new.entries ≡ self.old.entries }
    {
        self.patience.clear();
    }

    // A call of the operation was found.
    fn reward(&mut self, op: Op)
        ensures same { self.new.entries ≡ self.old.entries }
    {
        let place = op.0 as usize;
        if place < self.patience.len() {
            self.patience[place] = self.patience[place].saturating_add(REWARD);
        }
    }

    // A call of the operation wasn't found.
    fn tire(&mut self, op: Op) -> Result<(), AllocError>
        ensures same { OnOk result (self.new.entries ≡ self.old.entries) }
    {
        let place = op.0 as usize;
        lengthen(&mut self.patience, place)?;
        if place < self.patience.len() {
            self.patience[place] = self.patience[place].saturating_sub(1);
        }
        Ok(())
    }

    // What the call of an entry comes to, where the entry is of this call.
    fn looked_up(&self, hint: Option<u32>, op: Op, args: &[u32]) -> Option<Known>
        ensures known { IfSome result (λ k. (theory : Theory) (rows : List Node) →
            Each (IsEntry theory rows) self.now.entries.items → IsRemembered theory rows op.0 args.now k.value k.uses) }
    {
        match hint {
            None => None,
            Some(number) => {
                let place = number as usize;
                if place < self.entries.len() && is_of(&self.entries[place], op, args) {
                    Some(Known {
                        value: self.entries[place].value,
                        uses: self.entries[place].uses,
                    })
                } else {
                    None
                }
            }
        }
    }

    /// Whether a call of the operation that wasn't found may be taken up, for which room is taken.
    pub fn takes_up(&mut self, op: Op) -> Result<bool, AllocError>
        ensures same { OnOk result (self.new.entries ≡ self.old.entries) }
    {
        if self.is_closed() || !self.may_pay(op) {
            return Ok(false);
        }
        self.tire(op)?;
        if self.room > 0 {
            self.room -= 1;
            Ok(true)
        } else {
            Ok(false)
        }
    }

    /// Whether no more call is taken up. It takes no memory.
    pub fn is_full(&self) -> bool {
        self.room == 0
    }

    /// Remembers one more call.
    pub fn add(&mut self, alloc: Global, entry: Entry) -> Result<(), Memory>
        ensures added { OnOk result (self.new.entries.items ≡ self.old.entries.items ++ entry ∷ []) }
    {
        let place = self.entries.len();
        let mark = mark_of(entry.op, entry.args.all());
        self.entries.push(entry)?;
        self.hints.note(alloc, mark, (place & 0xFFFF_FFFF) as u32)
    }
}
