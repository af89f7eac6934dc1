// Composites of a part of a tree, while those of the whole are made.

ghost use Rattle.std.specs.Prelude.{◌≡◌, ◌+◌, IfOk, IsFalse, IsTrue, flat_map, map};
ghost use Rattle.std.specs.Fn.{iterate};
ghost use Rattle.symbolic_plans.specs.Plans.{plan_of, below};
ghost use Rattle.symbolic_plans.specs.OpenPlans.{kind_in, open_plan_of};
ghost use Rattle.candidate_composites.specs.Known.{found_of, over_one, own_or_made, placed_of, plans_in, under_run};
ghost use Rattle.node_trees.specs.Shapes.{unary_of};

use crate::operators::by_single;
use crate::part::Part;
use crate::step::Step;
use node_trees::branch::Single;
use node_trees::origin::Gen;
use spec_core::memory::Memory;
use std::alloc::Global;
use std::mem;
use symbolic_plans::composite::{ActionKind, OpenComposite};
use symbolic_plans::scheme::{Row, Scheme};

/// A composite of a part of a tree: one of a node, as the node has it; the same under a rule, and that rule so many times more over it; or
/// what operators made of such. Most are dropped by an operator near their node, and are never copied.
#[derive(Drop)]
pub enum Given<'a> {
    Own(&'a OpenComposite),
    Beneath(Row, u32, &'a OpenComposite),
    Made(OpenComposite),
}

// A composite under an equal rule, and that rule so many times more over it.
fn under_rules(
    alloc: Global,
    row: &Row,
    more: u32,
    composite: OpenComposite,
) -> Result<OpenComposite, Memory>
    ensures { IfOk result (λ c. open_plan_of c ≡ under_run row.now more (open_plan_of composite)) }
{
    let OpenComposite {
        kind,
        columns,
        scheme,
    } = composite;
    let scheme = Box::new(alloc, scheme)?;
    let scheme = Scheme::Under(row.copy(alloc)?, more, scheme);
    Ok(OpenComposite {
        kind,
        columns,
        scheme,
    })
}

/// An equal composite under an equal rule, and that rule so many times more over it.
pub(crate) fn copied_below(
    alloc: Global,
    row: &Row,
    more: u32,
    composite: &OpenComposite,
) -> Result<OpenComposite, Memory>
    ensures { IfOk result (λ c. open_plan_of c ≡ under_run row.now more (open_plan_of composite.now)) }
{
    let composite = composite.copy(alloc)?;
    under_rules(alloc, row, more, composite)
}

// Whether both are the same rule, one that a choice, a parallel composition or a disabling puts over its sides.
fn are_alike(left: &Row, right: &Row) -> bool
    ensures { IsTrue result → left.now ≡ right.now }
{
    match left {
        Row::Chl => matches!(right, Row::Chl),
        Row::Chr => matches!(right, Row::Chr),
        Row::Val(_) => false,
        Row::Gate(_) => false,
        Row::Guard => false,
        Row::Let => false,
        Row::Parl => matches!(right, Row::Parl),
        Row::Parr => matches!(right, Row::Parr),
        Row::Pass => false,
        Row::Enstep => false,
        Row::Disstep => matches!(right, Row::Disstep),
        Row::Disend => matches!(right, Row::Disend),
        Row::Distake => matches!(right, Row::Distake),
        Row::Call => false,
        Row::Rel => false,
    }
}

// Counts a rule once more, and so many times more, where it is another's own; whether it did.
fn count(own: &Row, more: &mut u32, row: &Row, again: u32) -> bool
    ensures own { IsTrue result → own.now ≡ row.now }
    ensures more { IsTrue result → more.new ≡ more.old + again + 1 }
    ensures same { IsFalse result → more.new ≡ more.old }
{
    if again < u32::MAX - *more && are_alike(own, row) {
        *more += again + 1;
        true
    } else {
        false
    }
}

// Puts the rule over the tree, and so many times more, if the tree begins with the same one; whether it did.
fn lengthen_scheme(scheme: &mut Scheme, row: &Row, again: u32) -> bool
    ensures longer { IsTrue result → plan_of scheme.new ≡ below row.now (iterate (below row.now) again (plan_of scheme.old)) }
    ensures same { IsFalse result → plan_of scheme.new ≡ plan_of scheme.old }
{
    match scheme {
        Scheme::Under(own, more, _) => count(own, more, row, again),
        _ => false,
    }
}

// Puts the rule over the composite, and so many times more, if its tree begins with the same one; whether it did.
fn lengthen(composite: &mut OpenComposite, row: &Row, again: u32) -> bool
    ensures longer { IsTrue result → open_plan_of composite.new ≡ under_run row.now again (open_plan_of composite.old) }
    ensures same { IsFalse result → open_plan_of composite.new ≡ open_plan_of composite.old }
{
    lengthen_scheme(&mut composite.scheme, row, again)
}

// A composite to stand in the place of one that is being turned.
fn empty(alloc: Global) -> OpenComposite {
    OpenComposite {
        kind: ActionKind::Inner,
        columns: Vec::new(alloc),
        scheme: Scheme::Int,
    }
}

/// A composite of a part of a tree; or the place of a node that isn't expanded, with the steps from it up to the part, the lowest first.
#[derive(Drop)]
pub enum Found<'a> {
    Gap(Gen, Vec<Step<'a>>),
    Composite(Given<'a>),
}

impl<'a> Given<'a> {
    /// The kind of its action. It takes no memory.
    pub fn kind(&self) -> ActionKind
        ensures { kind_in result ≡ (own_or_made self.now).kind }
    {
        match self {
            Given::Own(composite) => composite.kind,
            Given::Beneath(_, _, composite) => composite.kind,
            Given::Made(composite) => composite.kind,
        }
    }

    // Puts the rule over the composite, and so many times more, if it is under the same one; whether it did.
    fn lengthen(&mut self, row: &Row, again: u32) -> bool
        ensures longer { IsTrue result → own_or_made self.new ≡ under_run row.now again (own_or_made self.old) }
        ensures same { IsFalse result → own_or_made self.new ≡ own_or_made self.old }
    {
        match self {
            Given::Own(_) => false,
            Given::Beneath(own, more, _) => count(own, more, row, again),
            Given::Made(composite) => lengthen(composite, row, again),
        }
    }

    // The composite under another rule than before, and that rule so many times more over it.
    fn under(self, alloc: Global, row: &Row, more: u32) -> Result<Given<'a>, Memory>
        ensures { IfOk result (λ g. own_or_made g ≡ under_run row.now more (own_or_made self.entry)) }
    {
        match self {
            Given::Own(composite) => Ok(Given::Beneath(row.copy(alloc)?, more, composite)),
            Given::Beneath(inner, count, composite) => {
                let composite = copied_below(alloc, &inner, count, composite)?;
                Ok(Given::Made(under_rules(alloc, row, more, composite)?))
            }
            Given::Made(composite) => { Ok(Given::Made(under_rules(alloc, row, more, composite)?)) }
        }
    }

    // Takes the composite out. What is left in its place is put aside by the caller.
    fn taken(&mut self, alloc: Global) -> Given<'a>
        ensures { own_or_made result ≡ own_or_made self.old }
    {
        mem::replace(self, Given::Made(empty(alloc)))
    }

    /// Puts the composite under a rule, and that rule so many times more over it.
    pub fn put_under(&mut self, alloc: Global, row: &Row, more: u32) -> Result<(), Memory>
        ensures { IfOk result (λ _. own_or_made self.new ≡ under_run row.now more (own_or_made self.old)) }
    {
        if self.lengthen(row, more) {
            return Ok(());
        }
        let composite = self.taken(alloc);
        *self = composite.under(alloc, row, more)?;
        Ok(())
    }

    /// Puts the composite under an operator over one part.
    pub fn put_over(&mut self, alloc: Global, operator: &Single) -> Result<(), Memory>
        ensures { IfOk result (λ _. own_or_made self.new ≡ over_one (unary_of operator.now) (own_or_made self.old)) }
    {
        let composite = self.taken(alloc).take(alloc)?;
        *self = Given::Made(by_single(alloc, operator, composite)?);
        Ok(())
    }

    /// The composite by itself. It is copied where it is a node's own, under a rule or not.
    pub fn take(self, alloc: Global) -> Result<OpenComposite, Memory>
        ensures { IfOk result (λ c. open_plan_of c ≡ own_or_made self.entry) }
    {
        match self {
            Given::Own(composite) => composite.copy(alloc),
            Given::Beneath(row, more, composite) => copied_below(alloc, &row, more, composite),
            Given::Made(composite) => Ok(composite),
        }
    }
}

// The same as a part of the whole.
fn part(alloc: Global, found: Found<'_>) -> Result<Part<'_>, Memory>
    ensures { IfOk result (λ x. placed_of x ≡ found_of found.entry) }
{
    match found {
        Found::Gap(generation, steps) => Ok(Part::Gap(generation, steps)),
        Found::Composite(composite) => Ok(Part::Composite(composite.take(alloc)?)),
    }
}

/// The same as parts of the whole.
pub fn parts<'a>(alloc: Global, those: Vec<Found<'a>>) -> Result<Vec<Part<'a>>, Memory>
    ensures same { IfOk result (λ all. map placed_of all.items ≡ map found_of those.entry.items) }
{
    let mut all = Vec::new(alloc);
    for found in those {
        all.push(part(alloc, found)?)?;
    }
    Ok(all)
}

/// The composites among these.
pub fn composites(alloc: Global, those: Vec<Found<'_>>) -> Result<Vec<OpenComposite>, Memory>
    ensures those { IfOk result (λ all. map open_plan_of all.items ≡ flat_map plans_in (map found_of those.entry.items)) }
{
    let mut all = Vec::new(alloc);
    for found in those {
        match found {
            Found::Gap(_, _) => {}
            Found::Composite(composite) => all.push(composite.take(alloc)?)?,
        }
    }
    Ok(all)
}
