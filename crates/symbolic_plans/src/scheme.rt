// Trees of rules whose chosen values are left open.

ghost use Rattle.std.specs.Prelude.{◌≡◌, IfOk, IsFalse, IsTrue, map};
ghost use Rattle.symbolic_plans.specs.Plans.{field_of, plan_of, below, hidden, handed_on, together};

use crate::column::{Column, copy_columns};
use rule_model::rules::Slot;
use spec_core::memory::Memory;
use std::alloc::Global;

/// A rule with one part, under which the fields of an action stay open.
#[derive(Drop)]
pub enum Row {
    Chl,
    Chr,
    Val(Slot),
    Gate(u32),
    Guard,
    Let,
    Parl,
    Parr,
    Pass,
    Enstep,
    Disstep,
    Disend,
    Distake,
    Call,
    Rel,
}

/// A tree of rules whose chosen values are left open.
pub enum Scheme {
    /// An action acts; which of its fields take a value.
    Pre(Vec<bool>),
    /// An internal action is done.
    Int,
    /// An exit terminates; which of its fields take any value.
    Exit(Vec<bool>),
    /// A rule over its part, and the same rule so many times more over that.
    Under(Row, u32, Box<Scheme>),
    /// The body of a hiding acts at a hidden gate, with these fields.
    Hide(Vec<Column>, Box<Scheme>),
    /// The left side of an enabling terminates, with these fields.
    Enend(Vec<Column>, Box<Scheme>),
    /// Both sides of a parallel composition act together.
    Both(Box<Scheme>, Box<Scheme>),
}

// Written out, so that a function which lets a tree go has one call there.
impl Drop for Scheme {
    fn drop(self) {
        match self {
            Scheme::Pre(_) => {}
            Scheme::Int => {}
            Scheme::Exit(_) => {}
            Scheme::Under(_, _, _) => {}
            Scheme::Hide(_, _) => {}
            Scheme::Enend(_, _) => {}
            Scheme::Both(_, _) => {}
        }
    }
}

impl Row {
    /// An equal rule.
    pub fn copy(&self, alloc: Global) -> Result<Row, Memory>
        ensures equal { IfOk result (λ row. row ≡ self.now) }
    {
        match self {
            Row::Chl => Ok(Row::Chl),
            Row::Chr => Ok(Row::Chr),
            Row::Val(slot) => Ok(Row::Val(slot.copy(alloc)?)),
            Row::Gate(place) => Ok(Row::Gate(*place)),
            Row::Guard => Ok(Row::Guard),
            Row::Let => Ok(Row::Let),
            Row::Parl => Ok(Row::Parl),
            Row::Parr => Ok(Row::Parr),
            Row::Pass => Ok(Row::Pass),
            Row::Enstep => Ok(Row::Enstep),
            Row::Disstep => Ok(Row::Disstep),
            Row::Disend => Ok(Row::Disend),
            Row::Distake => Ok(Row::Distake),
            Row::Call => Ok(Row::Call),
            Row::Rel => Ok(Row::Rel),
        }
    }
}

// Whether both are the same rule, one that has nothing in it.
fn are_alike(left: &Row, right: &Row) -> bool
    ensures { IsTrue result → left.now ≡ right.now }
{
    match left {
        Row::Chl => matches!(right, Row::Chl),
        Row::Chr => matches!(right, Row::Chr),
        Row::Val(_) => false,
        Row::Gate(_) => false,
        Row::Guard => matches!(right, Row::Guard),
        Row::Let => matches!(right, Row::Let),
        Row::Parl => matches!(right, Row::Parl),
        Row::Parr => matches!(right, Row::Parr),
        Row::Pass => matches!(right, Row::Pass),
        Row::Enstep => matches!(right, Row::Enstep),
        Row::Disstep => matches!(right, Row::Disstep),
        Row::Disend => matches!(right, Row::Disend),
        Row::Distake => matches!(right, Row::Distake),
        Row::Call => matches!(right, Row::Call),
        Row::Rel => matches!(right, Row::Rel),
    }
}

impl Scheme {
    // Puts the rule over this tree, if the tree begins with the same one, which has nothing in it; whether it did.
    fn lengthen(&mut self, row: &Row) -> bool
        ensures longer { IsTrue result → plan_of self.new ≡ below row.now (plan_of self.old) }
        ensures same { IsFalse result → plan_of self.new ≡ plan_of self.old }
    {
        match self {
            Scheme::Under(own, more, _) => {
                if *more < u32::MAX && are_alike(own, row) {
                    *more += 1;
                    true
                } else {
                    false
                }
            }
            _ => false,
        }
    }

    /// The rule over this tree. Where the tree begins with the same rule, and that has nothing in it, no memory is taken.
    pub fn under(alloc: Global, row: Row, part: Scheme) -> Result<Scheme, Memory>
        ensures made { IfOk result (λ s. plan_of s ≡ below row (plan_of part)) }
    {
        let mut whole = part;
        if whole.lengthen(&row) {
            Ok(whole)
        } else {
            let whole = Box::new(alloc, whole)?;
            Ok(Scheme::Under(row, 0, whole))
        }
    }

    /// The body of a hiding acts by this tree at a hidden gate, with these fields.
    pub fn hide(alloc: Global, columns: Vec<Column>, part: Scheme) -> Result<Scheme, Memory>
        ensures made { IfOk result (λ s. plan_of s ≡ hidden (map field_of columns.items) (plan_of part)) }
    {
        let part = Box::new(alloc, part)?;
        Ok(Scheme::Hide(columns, part))
    }

    /// The left side of an enabling terminates by this tree, with these fields.
    pub fn enend(alloc: Global, columns: Vec<Column>, part: Scheme) -> Result<Scheme, Memory>
        ensures made { IfOk result (λ s. plan_of s ≡ handed_on (map field_of columns.items) (plan_of part)) }
    {
        let part = Box::new(alloc, part)?;
        Ok(Scheme::Enend(columns, part))
    }

    /// Both sides of a parallel composition act together by these trees.
    pub fn both(alloc: Global, left: Scheme, right: Scheme) -> Result<Scheme, Memory>
        ensures made { IfOk result (λ s. plan_of s ≡ together (plan_of left) (plan_of right)) }
    {
        let left = Box::new(alloc, left)?;
        let right = Box::new(alloc, right)?;
        Ok(Scheme::Both(left, right))
    }

    /// An equal tree. It recurs as deep as rules nest, where the same rule over itself counts once.
    pub fn copy(&self, alloc: Global) -> Result<Scheme, Memory>
        ensures equal { IfOk result (λ s. plan_of s ≡ plan_of self.now) }
    {
        match self {
            Scheme::Pre(takes) => Ok(Scheme::Pre(Vec::from_slice(alloc, takes)?)),
            Scheme::Int => Ok(Scheme::Int),
            Scheme::Exit(takes) => Ok(Scheme::Exit(Vec::from_slice(alloc, takes)?)),
            Scheme::Under(row, more, part) => {
                let part = Box::new(alloc, part.copy(alloc)?)?;
                Ok(Scheme::Under(row.copy(alloc)?, *more, part))
            }
            Scheme::Hide(columns, part) => {
                let part = part.copy(alloc)?;
                Scheme::hide(alloc, copy_columns(alloc, columns)?, part)
            }
            Scheme::Enend(columns, part) => {
                let part = part.copy(alloc)?;
                Scheme::enend(alloc, copy_columns(alloc, columns)?, part)
            }
            Scheme::Both(left, right) => {
                let left = left.copy(alloc)?;
                let right = right.copy(alloc)?;
                Scheme::both(alloc, left, right)
            }
        }
    }
}
