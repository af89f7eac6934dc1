// Marks in trees.

ghost use Rattle.std.specs.Prelude.{◌≡◌, [], IfOk, map};
ghost use Rattle.spec_core.specs.Theories.{theory_of};
ghost use Rattle.rule_model.specs.Derivations.{derivation_of};
ghost use Rattle.symbolic_rules.specs.Trees as trees;
ghost use Rattle.symbolic_composites.specs.OpenFields as fields;
ghost use Rattle.symbolic_plans.specs.Plans.{field_of, plan_of};
ghost use Rattle.symbolic_rules.specs.Tables.{windows_in};
ghost use Rattle.candidate_search.specs.Marks as marks;

use rule_model::rules::{Rules, Slot, Slots};
use spec_core::equation::DataSpec;
use spec_core::memory::Memory;
use spec_core::window::Window;
use std::alloc::Global;
use symbolic_plans::column::Column;
use symbolic_plans::scheme::{Row, Scheme};
use symbolic_trees::choices::choices_of;

// Whether it is the mark.
fn is_mark(slot: &Slot) -> bool
    ensures { result ≡ trees.is_mark slot.now }
{
    match slot {
        Slot::Of(_) => false,
        Slot::Mark => true,
        Slot::Blank => false,
    }
}

// Whether one of them is the mark.
fn has_marks(slots: &[Slot]) -> bool
    ensures { result ≡ trees.has_marks slots.now }
{
    match slots {
        [] => false,
        [first, rest @ ..] => is_mark(first) || has_marks(rest),
    }
}

/// Whether a mark stands in a tree. It takes no memory.
pub fn has_mark(tree: &Rules) -> bool
    ensures decides { result ≡ trees.has_mark (derivation_of tree.now) }
{
    match tree {
        Rules::Pre(slots) => has_marks(slots.as_slice()),
        Rules::Int => false,
        Rules::Exit(slots) => has_marks(slots.as_slice()),
        Rules::Chl(part) => has_mark(part),
        Rules::Chr(part) => has_mark(part),
        Rules::Val(slot, part) => is_mark(slot) || has_mark(part),
        Rules::Gate(_, part) => has_mark(part),
        Rules::Guard(part) => has_mark(part),
        Rules::Let(part) => has_mark(part),
        Rules::Parl(part) => has_mark(part),
        Rules::Parr(part) => has_mark(part),
        Rules::Both(left, right) => has_mark(left) || has_mark(right),
        Rules::Hide(part) => has_mark(part),
        Rules::Pass(part) => has_mark(part),
        Rules::Enstep(part) => has_mark(part),
        Rules::Enend(part) => has_mark(part),
        Rules::Disstep(part) => has_mark(part),
        Rules::Disend(part) => has_mark(part),
        Rules::Distake(part) => has_mark(part),
        Rules::Call(part) => has_mark(part),
        Rules::Rel(part) => has_mark(part),
    }
}

/// Whether the mark is one of these slots of fields. It takes no memory.
pub fn any_mark(choices: &[Slots]) -> bool
    ensures any { result ≡ marks.any_mark choices.now }
{
    match choices {
        [] => false,
        [first, rest @ ..] => has_marks(first.as_slice()) || any_mark(rest),
    }
}

// Whether a rule has a mark.
fn row_mark(row: &Row) -> bool
    ensures { result ≡ marks.row_mark row.now }
{
    match row {
        Row::Chl => false,
        Row::Chr => false,
        Row::Val(slot) => is_mark(slot),
        Row::Gate(_) => false,
        Row::Guard => false,
        Row::Let => false,
        Row::Parl => false,
        Row::Parr => false,
        Row::Pass => false,
        Row::Enstep => false,
        Row::Disstep => false,
        Row::Disend => false,
        Row::Distake => false,
        Row::Call => false,
        Row::Rel => false,
    }
}

/// Whether a rule of the plan has a mark, or a field that takes a value may have one; `given` says so of the fields that are open.
#[cycle(may_be_marked)]
pub fn may_be_marked(
    alloc: Global,
    algebra: &DataSpec,
    windows: &[Window],
    scheme: &Scheme,
    given: bool,
) -> Result<bool, Memory>
    ensures marked { IfOk result (λ b. b ≡
        marks.may_be_marked (theory_of algebra.now) (windows_in windows.now) (plan_of scheme.now) given) }
{
    match scheme {
        Scheme::Pre(_) => Ok(given),
        Scheme::Int => Ok(false),
        Scheme::Exit(_) => Ok(given),
        Scheme::Under(row, _, part) => {
            if row_mark(row) {
                Ok(true)
            } else {
                may_be_marked(alloc, algebra, windows, part, given)
            }
        }
        Scheme::Hide(columns, part) => own_marked(alloc, algebra, windows, columns, part),
        Scheme::Enend(columns, part) => own_marked(alloc, algebra, windows, columns, part),
        Scheme::Both(left, right) => {
            if may_be_marked(alloc, algebra, windows, left, given)? {
                Ok(true)
            } else {
                may_be_marked(alloc, algebra, windows, right, given)
            }
        }
    }
}

// The same of what turned internal with these fields.
#[cycle(may_be_marked)]
fn own_marked(
    alloc: Global,
    algebra: &DataSpec,
    windows: &[Window],
    columns: &[Column],
    part: &Scheme,
) -> Result<bool, Memory>
    ensures { IfOk result (λ b. b ≡ marks.may_be_marked (theory_of algebra.now) (windows_in windows.now) (plan_of part.now)
        (marks.any_mark (fields.all_choices (theory_of algebra.now) (windows_in windows.now) [] (map field_of columns.now)))) }
{
    let choices = choices_of(alloc, algebra, windows, &[], columns)?;
    may_be_marked(alloc, algebra, windows, part, any_mark(&choices))
}
