// Trees of inference rules.

ghost use Rattle.std.specs.Prelude.{◌≡◌, IfOk};
ghost use Rattle.rule_model.specs.Derivations.{derivation_of, chl, chr, val, gate, guard, letting, parl, parr, both, hiding, pass};
ghost use Rattle.rule_model.specs.Derivations.{enstep, enend, disstep, disend, distake, calling, rel};

use spec_core::memory::Memory;
use spec_core::value::Value;
use std::alloc::Global;
use std::marker::Model;

/// A chosen value in a tree: the value, the mark of one beyond a window, or none yet.
#[derive(Drop)]
pub enum Slot {
    Of(Value),
    Mark,
    Blank,
}

impl Slot {
    /// An equal one.
    pub fn copy(&self, alloc: Global) -> Result<Slot, Memory>
        ensures equal { IfOk result (λ slot. slot ≡ self.now) }
    {
        match self {
            Slot::Of(value) => Ok(Slot::Of(value.copy(alloc)?)),
            Slot::Mark => Ok(Slot::Mark),
            Slot::Blank => Ok(Slot::Blank),
        }
    }
}

/// Chosen values in order, which contracts see as a list.
#[derive(Drop)]
pub struct Slots {
    slots: Vec<Slot>,
}

impl Model for Slots {
    ghost use Rattle.std.specs.Prelude.{List};
    ghost use Rattle.rule_model.specs.declared.rules.Slot.{Slot};

    ghost Value = { List Slot };

    ghost view = { λ slots. slots.slots.items };
}

impl Slots {
    /// These values. It takes no memory.
    pub fn new(slots: Vec<Slot>) -> Slots
        ensures { result ≡ slots.items }
    {
        Slots { slots }
    }

    /// The values as a slice. It takes no memory.
    pub fn as_slice(&self) -> &[Slot]
        ensures { result.now ≡ self.now }
    {
        self.slots.as_slice()
    }

    /// Equal values, in the same order.
    pub fn copy(&self, alloc: Global) -> Result<Slots, Memory>
        ensures equal { IfOk result (λ slots. slots ≡ self.now) }
    {
        let mut all = Vec::new(alloc);
        for slot in &self.slots {
            all.push(slot.copy(alloc)?)?;
        }
        Ok(Slots::new(all))
    }

    /// Gives the list back. It takes no memory.
    pub fn into_vec(self) -> Vec<Slot>
        ensures { result.items ≡ self }
    {
        self.slots
    }
}

/// A tree of inference rules by which a behaviour acts, which contracts see as a `Derivation`.
pub enum Rules {
    /// An action acts, with the values that it chooses.
    Pre(Slots),
    /// An internal action is done.
    Int,
    /// An exit terminates, with the values that it chooses.
    Exit(Slots),
    /// The left side of a choice acts.
    Chl(Box<Rules>),
    /// The right side of a choice acts.
    Chr(Box<Rules>),
    /// The body of a choice of a value acts, with this value.
    Val(Slot, Box<Rules>),
    /// The body of a choice of a gate acts, with the gate at this place of the list, from 1.
    Gate(u32, Box<Rules>),
    /// The body of a guarded behaviour acts.
    Guard(Box<Rules>),
    /// The body of a `let` acts.
    Let(Box<Rules>),
    /// The left side of a parallel composition acts alone.
    Parl(Box<Rules>),
    /// The right side of a parallel composition acts alone.
    Parr(Box<Rules>),
    /// Both sides of a parallel composition act together.
    Both(Box<Rules>, Box<Rules>),
    /// The body of a hiding acts, at a hidden gate.
    Hide(Box<Rules>),
    /// The body of a hiding acts, and not at a hidden gate.
    Pass(Box<Rules>),
    /// The left side of an enabling acts.
    Enstep(Box<Rules>),
    /// The left side of an enabling terminates.
    Enend(Box<Rules>),
    /// The left side of a disabling acts.
    Disstep(Box<Rules>),
    /// The left side of a disabling terminates.
    Disend(Box<Rules>),
    /// The right side of a disabling acts.
    Distake(Box<Rules>),
    /// The process of a call acts.
    Call(Box<Rules>),
    /// The body of a relabelled behaviour acts.
    Rel(Box<Rules>),
}

// Written out, so that a function which lets a tree go has one call there.
impl Drop for Rules {
    fn drop(self) {
        match self {
            Rules::Pre(_) => {}
            Rules::Int => {}
            Rules::Exit(_) => {}
            Rules::Chl(_) => {}
            Rules::Chr(_) => {}
            Rules::Val(_, _) => {}
            Rules::Gate(_, _) => {}
            Rules::Guard(_) => {}
            Rules::Let(_) => {}
            Rules::Parl(_) => {}
            Rules::Parr(_) => {}
            Rules::Both(_, _) => {}
            Rules::Hide(_) => {}
            Rules::Pass(_) => {}
            Rules::Enstep(_) => {}
            Rules::Enend(_) => {}
            Rules::Disstep(_) => {}
            Rules::Disend(_) => {}
            Rules::Distake(_) => {}
            Rules::Call(_) => {}
            Rules::Rel(_) => {}
        }
    }
}

impl Rules {
    /// The left side of a choice acts by this tree.
    pub fn chl(alloc: Global, part: Rules) -> Result<Rules, Memory>
        ensures made { IfOk result (λ d. derivation_of d ≡ chl (derivation_of part)) }
    {
        let part = Box::new(alloc, part)?;
        Ok(Rules::Chl(part))
    }

    /// The right side of a choice acts by this tree.
    pub fn chr(alloc: Global, part: Rules) -> Result<Rules, Memory>
        ensures made { IfOk result (λ d. derivation_of d ≡ chr (derivation_of part)) }
    {
        let part = Box::new(alloc, part)?;
        Ok(Rules::Chr(part))
    }

    /// The body of a choice of a value acts by this tree, with this value.
    pub fn val(alloc: Global, slot: Slot, part: Rules) -> Result<Rules, Memory>
        ensures made { IfOk result (λ d. derivation_of d ≡ val slot (derivation_of part)) }
    {
        let part = Box::new(alloc, part)?;
        Ok(Rules::Val(slot, part))
    }

    /// The body of a choice of a gate acts by this tree, with the gate at this place of the list, from 1.
    pub fn gate(alloc: Global, place: u32, part: Rules) -> Result<Rules, Memory>
        ensures made { IfOk result (λ d. derivation_of d ≡ gate place (derivation_of part)) }
    {
        let part = Box::new(alloc, part)?;
        Ok(Rules::Gate(place, part))
    }

    /// The body of a guarded behaviour acts by this tree.
    pub fn guard(alloc: Global, part: Rules) -> Result<Rules, Memory>
        ensures made { IfOk result (λ d. derivation_of d ≡ guard (derivation_of part)) }
    {
        let part = Box::new(alloc, part)?;
        Ok(Rules::Guard(part))
    }

    /// The body of a `let` acts by this tree.
    pub fn letting(alloc: Global, part: Rules) -> Result<Rules, Memory>
        ensures made { IfOk result (λ d. derivation_of d ≡ letting (derivation_of part)) }
    {
        let part = Box::new(alloc, part)?;
        Ok(Rules::Let(part))
    }

    /// The left side of a parallel composition acts alone by this tree.
    pub fn parl(alloc: Global, part: Rules) -> Result<Rules, Memory>
        ensures made { IfOk result (λ d. derivation_of d ≡ parl (derivation_of part)) }
    {
        let part = Box::new(alloc, part)?;
        Ok(Rules::Parl(part))
    }

    /// The right side of a parallel composition acts alone by this tree.
    pub fn parr(alloc: Global, part: Rules) -> Result<Rules, Memory>
        ensures made { IfOk result (λ d. derivation_of d ≡ parr (derivation_of part)) }
    {
        let part = Box::new(alloc, part)?;
        Ok(Rules::Parr(part))
    }

    /// Both sides of a parallel composition act together by these trees.
    pub fn both(alloc: Global, left: Rules, right: Rules) -> Result<Rules, Memory>
        ensures made { IfOk result (λ d. derivation_of d ≡ both (derivation_of left) (derivation_of right)) }
    {
        let left = Box::new(alloc, left)?;
        let right = Box::new(alloc, right)?;
        Ok(Rules::Both(left, right))
    }

    /// The body of a hiding acts by this tree, at a hidden gate.
    pub fn hiding(alloc: Global, part: Rules) -> Result<Rules, Memory>
        ensures made { IfOk result (λ d. derivation_of d ≡ hiding (derivation_of part)) }
    {
        let part = Box::new(alloc, part)?;
        Ok(Rules::Hide(part))
    }

    /// The body of a hiding acts by this tree, and not at a hidden gate.
    pub fn pass(alloc: Global, part: Rules) -> Result<Rules, Memory>
        ensures made { IfOk result (λ d. derivation_of d ≡ pass (derivation_of part)) }
    {
        let part = Box::new(alloc, part)?;
        Ok(Rules::Pass(part))
    }

    /// The left side of an enabling acts by this tree.
    pub fn enstep(alloc: Global, part: Rules) -> Result<Rules, Memory>
        ensures made { IfOk result (λ d. derivation_of d ≡ enstep (derivation_of part)) }
    {
        let part = Box::new(alloc, part)?;
        Ok(Rules::Enstep(part))
    }

    /// The left side of an enabling terminates by this tree.
    pub fn enend(alloc: Global, part: Rules) -> Result<Rules, Memory>
        ensures made { IfOk result (λ d. derivation_of d ≡ enend (derivation_of part)) }
    {
        let part = Box::new(alloc, part)?;
        Ok(Rules::Enend(part))
    }

    /// The left side of a disabling acts by this tree.
    pub fn disstep(alloc: Global, part: Rules) -> Result<Rules, Memory>
        ensures made { IfOk result (λ d. derivation_of d ≡ disstep (derivation_of part)) }
    {
        let part = Box::new(alloc, part)?;
        Ok(Rules::Disstep(part))
    }

    /// The left side of a disabling terminates by this tree.
    pub fn disend(alloc: Global, part: Rules) -> Result<Rules, Memory>
        ensures made { IfOk result (λ d. derivation_of d ≡ disend (derivation_of part)) }
    {
        let part = Box::new(alloc, part)?;
        Ok(Rules::Disend(part))
    }

    /// The right side of a disabling acts by this tree.
    pub fn distake(alloc: Global, part: Rules) -> Result<Rules, Memory>
        ensures made { IfOk result (λ d. derivation_of d ≡ distake (derivation_of part)) }
    {
        let part = Box::new(alloc, part)?;
        Ok(Rules::Distake(part))
    }

    /// The process of a call acts by this tree.
    pub fn calling(alloc: Global, part: Rules) -> Result<Rules, Memory>
        ensures made { IfOk result (λ d. derivation_of d ≡ calling (derivation_of part)) }
    {
        let part = Box::new(alloc, part)?;
        Ok(Rules::Call(part))
    }

    /// The body of a relabelled behaviour acts by this tree.
    pub fn rel(alloc: Global, part: Rules) -> Result<Rules, Memory>
        ensures made { IfOk result (λ d. derivation_of d ≡ rel (derivation_of part)) }
    {
        let part = Box::new(alloc, part)?;
        Ok(Rules::Rel(part))
    }

    /// An equal tree.
    pub fn copy(&self, alloc: Global) -> Result<Rules, Memory>
        ensures equal { IfOk result (λ d. derivation_of d ≡ derivation_of self.now) }
    {
        match self {
            Rules::Pre(slots) => Ok(Rules::Pre(slots.copy(alloc)?)),
            Rules::Int => Ok(Rules::Int),
            Rules::Exit(slots) => Ok(Rules::Exit(slots.copy(alloc)?)),
            Rules::Chl(part) => Rules::chl(alloc, part.copy(alloc)?),
            Rules::Chr(part) => Rules::chr(alloc, part.copy(alloc)?),
            Rules::Val(slot, part) => {
                let slot = slot.copy(alloc)?;
                Rules::val(alloc, slot, part.copy(alloc)?)
            }
            Rules::Gate(place, part) => Rules::gate(alloc, *place, part.copy(alloc)?),
            Rules::Guard(part) => Rules::guard(alloc, part.copy(alloc)?),
            Rules::Let(part) => Rules::letting(alloc, part.copy(alloc)?),
            Rules::Parl(part) => Rules::parl(alloc, part.copy(alloc)?),
            Rules::Parr(part) => Rules::parr(alloc, part.copy(alloc)?),
            Rules::Both(left, right) => {
                let left = left.copy(alloc)?;
                let right = right.copy(alloc)?;
                Rules::both(alloc, left, right)
            }
            Rules::Hide(part) => Rules::hiding(alloc, part.copy(alloc)?),
            Rules::Pass(part) => Rules::pass(alloc, part.copy(alloc)?),
            Rules::Enstep(part) => Rules::enstep(alloc, part.copy(alloc)?),
            Rules::Enend(part) => Rules::enend(alloc, part.copy(alloc)?),
            Rules::Disstep(part) => Rules::disstep(alloc, part.copy(alloc)?),
            Rules::Disend(part) => Rules::disend(alloc, part.copy(alloc)?),
            Rules::Distake(part) => Rules::distake(alloc, part.copy(alloc)?),
            Rules::Call(part) => Rules::calling(alloc, part.copy(alloc)?),
            Rules::Rel(part) => Rules::rel(alloc, part.copy(alloc)?),
        }
    }
}
