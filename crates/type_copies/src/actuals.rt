// Refusals of formal items that no item of the actual types replaces.

ghost use Rattle.std.specs.Prelude.{◌≡◌, ◌++◌, ◌∷◌, ◌||◌, not, [], IfOk, OnOk, map, option_map, unwrap_or};
ghost use Rattle.std.specs.List.{find, flat_map};
ghost use Rattle.std.specs.Str.{bytes_eq};
ghost use Rattle.type_contents.specs.Items.{small};
ghost use Rattle.type_contents.specs.Items as items;
ghost use Rattle.type_contents.specs.Images as images;
ghost use Rattle.type_contents.specs.Views.{item_of, described_of, renaming_view};
ghost use Rattle.lotos_ast.specs.declared.refusal.RefusalKind.TheVariants.{BadActual};
ghost use Rattle.type_copies.specs.BadActuals.{pair_place, written, bad_actual, bad_actuals};
ghost use Rattle.type_copies.specs.Views.{item_at};

use crate::copy::{is_in, renames};
use lotos_ast::names::Names;
use lotos_ast::place::Place;
use lotos_ast::refusal::{Refusal, RefusalKind};
use lotos_ast::types::{OperationPair, Pairs, SortPair};
use spec_core::memory::Memory;
use spec_core::name::Name;
use std::alloc::Global;
use type_contents::images::{Renaming, image, new_operation, operation_pairs, sort_pairs};
use type_contents::item::{Item, small};
use type_contents::item_kind::ItemKind;
use type_contents::own::Declared;

// Whether a pair is for the sort of this name.
fn is_for_sort(alloc: Global, pair: &SortPair, name: &str) -> Result<bool, Memory>
    ensures { IfOk result (λ is_for. is_for ≡ bytes_eq (small pair.now.old) name.now) }
{
    let old = small(alloc, &pair.old)?;
    Ok(old.as_str() == name)
}

// The place of the first pair for the sort of this name, or else this one.
fn sort_place(alloc: Global, pairs: &[SortPair], name: &str, place: Place) -> Result<Place, Memory>
    ensures { IfOk result (λ p. p ≡ unwrap_or (option_map (λ p. p.place) (find (λ p. bytes_eq (small p.old) name.now) pairs.now)) place) }
{
    match pairs {
        [] => Ok(place),
        [first, others @ ..] => {
            if is_for_sort(alloc, first, name)? {
                Ok(first.place)
            } else {
                sort_place(alloc, others, name, place)
            }
        }
    }
}

// Whether a pair is for an operation.
fn is_for_operation(alloc: Global, pair: &OperationPair, item: &Item) -> Result<bool, Memory>
    ensures { IfOk result (λ is_for. is_for ≡ images.renames (item_of item.now) (images.new_operation pair.now)) }
{
    let new = new_operation(alloc, pair)?;
    Ok(renames(item, &new))
}

// The place of the first pair for an operation, or else this one.
fn operation_place(
    alloc: Global,
    pairs: &[OperationPair],
    item: &Item,
    place: Place,
) -> Result<Place, Memory>
    ensures { IfOk result (λ p. p ≡ unwrap_or (option_map (λ p. p.place)
        (find (λ p. images.renames (item_of item.now) (images.new_operation p)) pairs.now)) place) }
{
    match pairs {
        [] => Ok(place),
        [first, others @ ..] => {
            if is_for_operation(alloc, first, item)? {
                Ok(first.place)
            } else {
                operation_place(alloc, others, item, place)
            }
        }
    }
}

// The place of the first pair for an item, or else this one.
fn pair_place(alloc: Global, place: Place, pairs: &Pairs, item: &Item) -> Result<Place, Memory>
    ensures { IfOk result (λ p. p ≡ pair_place place pairs.now (item_of item.now)) }
{
    if item.kind.is_same(ItemKind::Sort) {
        sort_place(alloc, sort_pairs(pairs), item.name.as_str(), place)
    } else {
        operation_place(alloc, operation_pairs(pairs), item, place)
    }
}

// The name of an item as it is declared, with low lines where it stands between arguments.
fn written(alloc: Global, declared: &Declared<'_>) -> Result<Name, Memory>
    ensures { IfOk result (λ name. name ≡ written (described_of declared.now)) }
{
    if declared.item.kind.is_same(ItemKind::Infix) {
        let mut text = String::from_str(alloc, "_")?;
        text.push_str(declared.spelled.text.as_str())?;
        text.push_str("_")?;
        Ok(Name::new(text))
    } else {
        declared.spelled.text.copy(alloc)
    }
}

// Refuses a formal item.
fn add_refused(
    alloc: Global,
    place: Place,
    pairs: &Pairs,
    formal: &Declared<'_>,
    refusals: &mut Vec<Refusal>,
) -> Result<(), Memory>
    ensures { OnOk result (refusals.new.items ≡ refusals.old.items ++ record {
      kind = BadActual;
      place =
          pair_place place pairs.now (described_of formal.now).item;
      names = written (described_of formal.now) ∷ [];
    } ∷ []) }
{
    refusals.push(Refusal {
        kind: RefusalKind::BadActual,
        place: pair_place(alloc, place, pairs, &formal.item)?,
        names: Names::new(vec![in alloc; written(alloc, formal)?]?),
    })?;
    Ok(())
}

// The image of an item under pairs of names.
fn image_under(alloc: Global, pairs: &Pairs, item: &Item) -> Result<Item, Memory>
    ensures { IfOk result (λ x. item_of x ≡ images.image (images.renaming_of pairs.now) (item_of item.now)) }
{
    let renaming = Renaming::of(alloc, pairs)?;
    image(alloc, &renaming, item)
}

// Whether an item isn't formal, or its image is an item of the actual types.
fn is_fitted(
    alloc: Global,
    pairs: &Pairs,
    formals: &[&Item],
    actual: &[&Item],
    item: &Item,
) -> Result<bool, Memory>
    ensures { IfOk result (λ is_fitted. is_fitted ≡ (not (items.is_in (map item_at formals.now) (item_of item.now))
        || items.is_in (map item_at actual.now) (images.image (images.renaming_of pairs.now) (item_of item.now)))) }
{
    if !is_in(formals, item) {
        return Ok(true);
    }
    let replacement = image_under(alloc, pairs, item)?;
    Ok(is_in(actual, &replacement))
}

// Refuses an item that is formal, and whose image isn't an item of the actual types.
fn add_bad_actual(
    alloc: Global,
    place: Place,
    pairs: &Pairs,
    formals: &[&Item],
    actual: &[&Item],
    declared: &Declared<'_>,
    refusals: &mut Vec<Refusal>,
) -> Result<(), Memory>
    ensures { OnOk result (refusals.new.items ≡ refusals.old.items ++ bad_actual place pairs.now (map item_at formals.now)
        (map item_at actual.now) (described_of declared.now)) }
{
    if is_fitted(alloc, pairs, formals, actual, &declared.item)? {
        Ok(())
    } else {
        add_refused(alloc, place, pairs, declared, refusals)
    }
}

/// Refuses those of all items that are formal, and whose images aren't items of the actual types, each at its pair or else at this place.
pub fn add_bad_actuals(
    alloc: Global,
    place: Place,
    pairs: &Pairs,
    formals: &[&Item],
    actual: &[&Item],
    all: &[Declared<'_>],
    refusals: &mut Vec<Refusal>,
) -> Result<(), Memory>
    ensures { OnOk result (refusals.new.items ≡ refusals.old.items ++ bad_actuals place pairs.now (map item_at formals.now)
        (map item_at actual.now) (map described_of all.now)) }
{
    for declared in all {
        add_bad_actual(alloc, place, pairs, formals, actual, declared, refusals)?;
    }
    Ok(())
}
