// The way down a tree of rules, rule by rule.

ghost use Rattle.std.specs.Prelude.{◌≡◌};
ghost use Rattle.symbolic_plans.specs.Plans.{plan_of};
ghost use Rattle.symbolic_plans.specs.Parts.{plan_of_first, plan_of_part};

use crate::column::Column;
use crate::scheme::{Row, Scheme};

/// A part of a tree of rules: what stands there from some rule on.
#[derive(Clone, Copy)]
pub struct SchemePart<'a> {
    scheme: &'a Scheme,
    // How many rules of the run with which the tree begins stand above the part.
    passed: u32,
}

/// The rule with which a part begins, and what it is over.
#[derive(Clone, Copy)]
pub enum FirstRule<'a> {
    /// An action acts; which of its fields take a value.
    Pre(&'a [bool]),
    /// An internal action is done.
    Int,
    /// An exit terminates; which of its fields take any value.
    Exit(&'a [bool]),
    /// A rule over its part.
    Under(&'a Row, SchemePart<'a>),
    /// The body of a hiding acts at a hidden gate, with these fields.
    Hide(&'a [Column], &'a Scheme),
    /// The left side of an enabling terminates, with these fields.
    Enend(&'a [Column], &'a Scheme),
    /// Both sides of a parallel composition act together.
    Both(&'a Scheme, &'a Scheme),
}

impl Scheme {
    /// The whole tree, as a part. It takes no memory.
    pub fn whole<'a>(&'a self) -> SchemePart<'a>
        ensures whole { plan_of_part result ≡ plan_of self.now }
    {
        SchemePart {
            scheme: self,
            passed: 0,
        }
    }
}

impl<'a> SchemePart<'a> {
    /// The first rule. It takes no memory.
    pub fn first(self) -> FirstRule<'a>
        ensures first { plan_of_first result ≡ plan_of_part self.entry }
    {
        match self.scheme {
            Scheme::Pre(takes) => FirstRule::Pre(takes),
            Scheme::Int => FirstRule::Int,
            Scheme::Exit(takes) => FirstRule::Exit(takes),
            Scheme::Under(row, more, part) => {
                if self.passed < *more {
                    let next = SchemePart {
                        scheme: self.scheme,
                        passed: self.passed + 1,
                    };
                    FirstRule::Under(row, next)
                } else {
                    FirstRule::Under(row, part.whole())
                }
            }
            Scheme::Hide(columns, part) => FirstRule::Hide(columns, part),
            Scheme::Enend(columns, part) => FirstRule::Enend(columns, part),
            Scheme::Both(left, right) => FirstRule::Both(left, right),
        }
    }
}
