// Behaviours end as they are declared to, or never.

ghost use Rattle.std.specs.Cmp.Lexicographic.{pointwise};
ghost use Rattle.std.specs.Prelude.{◌≡◌, ◌++◌, OnOk, Option, map, option_map};
ghost use Rattle.spec_core.specs.Numbers.{sort_number};
ghost use Rattle.static_readings.specs.Joins.{Read};
ghost use Rattle.static_readings.specs.Views.{functionality_of, output_of};
ghost use Rattle.static_check.specs.Bodies as bodies;
ghost use Rattle.static_check.specs.Bodies.{ending_refusals};

use lotos_ast::place::Place;
use lotos_ast::refusal::RefusalKind;
use spec_core::items::Sort;
use spec_core::memory::Memory;
use static_readings::functionality::Functionality;
use static_readings::output::Output;
use std::alloc::Global;

// Whether a sort in which a behaviour ends may be declared as another: a sort that isn't known, which has the number `unknown`, as any.
fn fits_sort(unknown: Option<usize>, sort: Sort, declared: Sort) -> bool
    ensures { result ≡ bodies.fits_sort unknown sort.0 declared.0 }
{
    match unknown {
        None => sort.0 == declared.0,
        Some(unknown) => sort.0 as usize == unknown || sort.0 == declared.0,
    }
}

// The same of several sorts, in order.
fn all_fit(unknown: Option<usize>, sorts: &[Sort], declared: &[Sort]) -> bool
    ensures { result ≡ pointwise (bodies.fits_sort unknown) (map sort_number sorts.now) (map sort_number declared.now) }
{
    match sorts {
        [] => declared.is_empty(),
        [first, rest @ ..] => match declared {
            [] => false,
            [other, others @ ..] => {
                fits_sort(unknown, *first, *other) && all_fit(unknown, rest, others)
            }
        },
    }
}

// Whether a behaviour that ends in one way may be declared to end in another.
fn may_end(unknown: Option<usize>, found: &Functionality, declared: &Functionality) -> bool
    ensures { result ≡ bodies.may_end unknown (functionality_of found.now) (functionality_of declared.now) }
{
    match found {
        Functionality::NoExit => true,
        Functionality::Exits(sorts) => match declared {
            Functionality::NoExit => false,
            Functionality::Exits(others) => all_fit(unknown, sorts, others),
        },
    }
}

// Refuses what stands at a place, unless this holds.
fn refuse_unless(alloc: Global, holds: bool, place: Place, out: &mut Output) -> Result<(), Memory>
    ensures code { OnOk result ((output_of out.new).code ≡ (output_of out.old).code) }
    ensures refusals { OnOk result ((output_of out.new).refusals ≡ (output_of out.old).refusals ++ bodies.refused_unless holds place) }
{
    if holds {
        Ok(())
    } else {
        out.refuse(alloc, RefusalKind::WrongFunctionality, place)
    }
}

/// Refuses a behaviour that may end otherwise than it is declared to (25 WrongFunctionality), at the name that is declared. Where it isn't
/// read, or what is declared isn't known, nothing is refused. A sort of the number `unknown`, where there is one, fits any.
#[tactic(auto, using(crate::proofs::Endings::none_declared, crate::proofs::Endings::none_read, crate::proofs::Endings::both_known))]
pub fn add_ending(
    alloc: Global,
    unknown: Option<usize>,
    place: Place,
    declared: &Option<Functionality>,
    found: &Option<Functionality>,
    out: &mut Output,
) -> Result<(), Memory>
    ensures code { OnOk result ((output_of out.new).code ≡ (output_of out.old).code) }
    ensures refusals { OnOk result ((x : Option Read) → option_map functionality_of found.now ≡ option_map (λ r. r.functionality) x →
        (output_of out.new).refusals
        ≡ (output_of out.old).refusals ++ ending_refusals unknown place (option_map functionality_of declared.now) x) }
{
    match declared {
        None => Ok(()),
        Some(declared) => match found {
            None => Ok(()),
            Some(found) => refuse_unless(alloc, may_end(unknown, found, declared), place, out),
        },
    }
}
