// Calls that are run by themselves, one in another.

ghost use Rattle.std.specs.Prelude.{◌≡◌, ◌∷◌, [], OnOk, MatchOption, reverse};

use rewriter::step::Todo;
use rewriter::values::Values;
use spec_core::items::Op;
use std::alloc::{AllocError, Global};
use std::marker::Model;

/// A call of an operation over values that is run by itself, since so many uses of equations, and the steps and values that wait for its
/// value.
#[derive(Drop)]
pub struct Frame {
    pub op: Op,
    pub args: Values,
    pub start: u64,
    pub todo: Todo,
    pub values: Values,
}

/// The calls that are run. A contract sees them as a list, the innermost one first.
#[derive(Drop)]
pub struct Frames {
    frames: Vec<Frame>,
}

impl Model for Frames {
    ghost use Rattle.std.specs.Prelude.{List, reverse};
    ghost use Rattle.match_code.specs.declared.frames.Frame.{Frame};

    ghost Value = { List Frame };

    ghost view = { λ f. reverse f.frames.items };
}

impl Frames {
    /// No calls.
    pub fn new(alloc: Global) -> Frames
        ensures none { result ≡ [] }
    {
        Frames {
            frames: Vec::new(alloc),
        }
    }

    /// One more call, in the last one.
    pub fn push(&mut self, frame: Frame) -> Result<(), AllocError>
        ensures pushed { OnOk result (self.new ≡ frame ∷ self.old) }
    {
        self.frames.push(frame)?;
        Ok(())
    }

    /// Has them in the opposite order. It takes no memory.
    pub fn turn(&mut self)
        ensures turned { self.new ≡ reverse self.old }
    {
        self.frames.reverse();
    }

    /// Takes the innermost call.
    pub fn pop(&mut self) -> Option<Frame>
        ensures popped { MatchOption result ((self.old ≡ []) × (self.new ≡ [])) (λ f. self.old ≡ f ∷ self.new) }
    {
        self.frames.pop()
    }
}
