// What types bring in.

ghost use Rattle.std.specs.Prelude.{◌≡◌, ◌++◌, ◌<◌, ℕ, [], suc, true, IfOk, OnOk, None, is_some, length, map, slice_index_or};
ghost use Rattle.std.specs.List.{list_all, flat_map};
ghost use Rattle.type_contents.specs.Lists.{listed};
ghost use Rattle.type_contents.specs.Images as images;
ghost use Rattle.type_contents.specs.Numbering as numbering;
ghost use Rattle.type_contents.specs.Contents as contents;
ghost use Rattle.type_contents.specs.Settled.{are_ready};
ghost use Rattle.type_contents.specs.Views.{described_of, items_at, renaming_by, renaming_view, AreWithin, parts_at, brought_at};

use crate::contents::Contents;
use crate::described::described_image;
use crate::images::{NewOperation, NewSort, Renaming, has_formal_name};
use crate::item_table::ItemTable;
use crate::numbers::number_of;
use crate::order::{Brought, has_item, source_in_order};
use crate::own::{Declared, own_items};
use crate::standing::Standing;
use lotos_ast::token::Token;
use lotos_ast::types::{Pairs, TypeBody, TypeDef};
use spec_core::memory::Memory;
use std::alloc::Global;

// Adds the image of an item, if it is another item.
fn add_new_image<'a>(
    alloc: Global,
    all: &mut Vec<Declared<'a>>,
    sorts: &[NewSort<'a>],
    operations: &[NewOperation<'a>],
    one: &Declared<'a>,
) -> Result<(), Memory>
    ensures { OnOk result (map described_of all.new.items ≡ map described_of all.old.items
        ++ numbering.new_image (images.described_image (renaming_by sorts.now operations.now)) (described_of one.now)) }
{
    let image = described_image(alloc, sorts, operations, one)?;
    if image.item.is_same(&one.item) {
        return Ok(());
    }
    all.push(image)?;
    Ok(())
}

// The images of items, where they are other items.
fn new_images<'a>(
    alloc: Global,
    renaming: &Renaming<'a>,
    entries: &[Declared<'a>],
) -> Result<Vec<Declared<'a>>, Memory>
    ensures { IfOk result (λ all. map described_of all.items ≡ flat_map (numbering.new_image
        (images.described_image (renaming_view renaming.now))) (map described_of entries.now)) }
{
    let mut all = Vec::new(alloc);
    for one in entries {
        add_new_image(alloc, &mut all, &renaming.sorts, &renaming.operations, one)?;
    }
    Ok(all)
}

// The new names of the operations of a kept item: none where a formal one has its name.
fn kept_operations<'r, 'a>(
    table: &ItemTable,
    formals: &[usize],
    renaming: &'r Renaming<'a>,
    one: &Declared<'a>,
) -> &'r [NewOperation<'a>]
    requires { AreWithin (length table.now) formals.now }
    ensures { renaming_by renaming.now.sorts.items result.now ≡ images.kept_renaming (items_at table.now formals.now)
        (renaming_view renaming.now) (described_of one.now).item }
{
    if has_formal_name(table, formals, &one.item) {
        &[]
    } else {
        &renaming.operations
    }
}

// Adds the image of an item where formal ones are replaced, if it isn't formal and the image is another item.
fn add_new_kept<'a>(
    alloc: Global,
    all: &mut Vec<Declared<'a>>,
    table: &ItemTable,
    formals: &[usize],
    renaming: &Renaming<'a>,
    one: &Declared<'a>,
) -> Result<(), Memory>
    requires { AreWithin (length table.now) formals.now }
    ensures { OnOk result (map described_of all.new.items ≡ map described_of all.old.items
        ++ numbering.new_kept (items_at table.now formals.now) (renaming_view renaming.now) (described_of one.now)) }
{
    if has_item(table, formals, &one.item) {
        return Ok(());
    }
    let operations = kept_operations(table, formals, renaming, one);
    add_new_image(alloc, all, &renaming.sorts, operations, one)?;
    Ok(())
}

// The images of items where formal ones are replaced, where they aren't formal and the images are other items.
fn new_kept<'a>(
    alloc: Global,
    table: &ItemTable,
    formals: &[usize],
    renaming: &Renaming<'a>,
    entries: &[Declared<'a>],
) -> Result<Vec<Declared<'a>>, Memory>
    requires { AreWithin (length table.now) formals.now }
    ensures { IfOk result (λ all. map described_of all.items ≡ flat_map (numbering.new_kept (items_at table.now formals.now)
        (renaming_view renaming.now)) (map described_of entries.now)) }
{
    let mut all = Vec::new(alloc);
    for one in entries {
        add_new_kept(alloc, &mut all, table, formals, renaming, one)?;
    }
    Ok(all)
}

// What a copy with new names brings in.
fn renamed_brings<'a>(
    alloc: Global,
    types: &[TypeDef],
    made: &Contents,
    standings: &[Option<Standing>],
    found: &[Option<Brought<'a>>],
    source: &Token,
    pairs: &'a Pairs,
) -> Result<Vec<Declared<'a>>, Memory>
    requires made { made.now ≡ contents.contents types.now }
    requires parts { map parts_at standings.now ≡ numbering.parts types.now }
    ensures { IfOk result (λ all. map described_of all.items ≡ flat_map (numbering.new_image
        (images.described_image (images.renaming_of pairs.now))) (numbering.source_in_order types.now (map brought_at found.now)
        source.now)) }
{
    let entries = source_in_order(alloc, types, made, standings, found, source)?;
    let renaming = Renaming::of(alloc, pairs)?;
    let all = new_images(alloc, &renaming, &entries)?;
    Ok(all)
}

// What a copy brings in whose formal items are replaced.
fn actualized_brings<'a>(
    alloc: Global,
    types: &[TypeDef],
    made: &Contents,
    standings: &[Option<Standing>],
    found: &[Option<Brought<'a>>],
    source: &Token,
    pairs: &'a Pairs,
) -> Result<Vec<Declared<'a>>, Memory>
    requires made { made.now ≡ contents.contents types.now }
    requires parts { map parts_at standings.now ≡ numbering.parts types.now }
    ensures { IfOk result (λ all. map described_of all.items ≡ flat_map (numbering.new_kept
        (contents.formals_of types.now (contents.contents types.now) source.now) (images.renaming_of pairs.now))
        (numbering.source_in_order types.now (map brought_at found.now) source.now)) }
{
    let entries = source_in_order(alloc, types, made, standings, found, source)?;
    let renaming = Renaming::of(alloc, pairs)?;
    let content = made.of_type(number_of(types, source));
    let all = new_kept(alloc, content.table, content.formals, &renaming, &entries)?;
    Ok(all)
}

// What a type brings in by how it is made.
fn brings_by<'a>(
    alloc: Global,
    types: &'a [TypeDef],
    made: &Contents,
    standings: &[Option<Standing>],
    found: &[Option<Brought<'a>>],
    body: &'a TypeBody,
) -> Result<Vec<Declared<'a>>, Memory>
    requires made { made.now ≡ contents.contents types.now }
    requires parts { map parts_at standings.now ≡ numbering.parts types.now }
    ensures { IfOk result (λ all. map described_of all.items ≡ numbering.brings_by types.now (map brought_at found.now) body.now) }
{
    match body {
        TypeBody::Declared {
            place: _,
            imports: _,
            formals,
            sorts,
            operations,
            equations: _,
        } => own_items(alloc, formals, sorts, operations),
        TypeBody::Renamed {
            place: _,
            source,
            pairs,
        } => renamed_brings(alloc, types, made, standings, found, source, pairs),
        TypeBody::Actualized {
            place: _,
            source,
            actuals: _,
            pairs,
        } => actualized_brings(alloc, types, made, standings, found, source, pairs),
    }
}

/// What a type brings in, where others bring in what is found.
pub fn brings_of<'a>(
    alloc: Global,
    types: &'a [TypeDef],
    made: &Contents,
    standings: &[Option<Standing>],
    found: &[Option<Brought<'a>>],
    definition: &'a TypeDef,
) -> Result<Vec<Declared<'a>>, Memory>
    requires made { made.now ≡ contents.contents types.now }
    requires parts { map parts_at standings.now ≡ numbering.parts types.now }
    ensures { IfOk result (λ all. map described_of all.items ≡ numbering.brings types.now (map brought_at found.now) definition.now) }
{
    match definition {
        TypeDef::Library { place: _, names: _ } => Ok(Vec::new(alloc)),
        TypeDef::Definition {
            place: _,
            name: _,
            body,
        } => brings_by(alloc, types, made, standings, found, body),
    }
}
