// How many trees are looked through, where 256 numbers are in the window.

use crate::data::{NUMBERS, TRUTHS, algebra, number, offer, wide_windows, windows};
use crate::samples::{Sample, composite, numbers};
use candidate_search::searches::{TreeSearch, next_among, next_asked, search_count, slots_asked};
use rule_model::offer::{Field, Offer};
use spec_core::equation::DataSpec;
use spec_core::items::Gate;
use spec_core::memory::Memory;
use spec_core::window::Window;
use std::alloc::Global;
use std::test::Fail;
use symbolic_plans::column::Column;
use symbolic_plans::composite::{ActionKind, OpenComposite};
use symbolic_plans::scheme::Scheme;

// How many trees are found, one after another.
fn finds(
    alloc: Global,
    algebra: &DataSpec,
    windows: &[Window],
    composite: &OpenComposite,
) -> Result<u32, Memory> {
    let mut finds = 0;
    let mut from = 0;
    match slots_asked(alloc, algebra, windows, composite, TreeSearch::Any)? {
        None => Ok(0),
        Some(choices) => {
            for turn in 0..1000 {
                let search = TreeSearch::Any;
                match next_among(alloc, algebra, windows, composite, &choices, &search, from)? {
                    None => return Ok(finds),
                    Some(asked) => {
                        from = asked.number + 1;
                        finds = turn + 1;
                    }
                }
            }
            Ok(finds)
        }
    }
}

// The offer with so many fields, each of which gives the number.
fn gives(alloc: Global, fields: usize, n: u32) -> Result<Offer, Memory> {
    let mut all = Vec::new(alloc);
    for _turn in 0..fields {
        all.push(Field::Give(number(alloc, n)?))?;
    }
    Ok(offer(all))
}

#[test]
fn three_who_take_one_value_have_as_many_trees_as_values(rt: HostRuntime) -> Result<(), Fail> {
    let alloc = rt.alloc();
    let data = algebra(alloc)?;
    let table = windows(alloc, 256, true)?;
    let three = composite(alloc, Sample::Three)?;
    assert_eq!(rt;
        search_count(alloc, &data, &table, &three, TreeSearch::Any)?,
        256
    );
    assert_eq!(rt; finds(alloc, &data, &table, &three)?, 256);
    Ok(())
}

// With so many fields: what is counted, and that an offer which gives all of them leaves one tree.
const COUNTS: [(usize, u64); 5] = [
    (0, 1),
    (1, 257),
    (2, 66_049),
    (7, 74_051_159_531_521_793),
    (8, 18_446_744_073_709_551_615),
];

#[test]
fn trees_are_counted_up_to_a_bound(rt: HostRuntime) -> Result<(), Fail> {
    let alloc = rt.alloc();
    let data = algebra(alloc)?;
    let table = windows(alloc, 256, false)?;
    for (fields, due) in COUNTS {
        let taken = numbers(alloc, fields)?;
        assert_eq!(rt;
            search_count(alloc, &data, &table, &taken, TreeSearch::Any)?,
            due
        );
        let offer = gives(alloc, fields, 300)?;
        let search = TreeSearch::Meeting(&offer);
        assert_eq!(rt; search_count(alloc, &data, &table, &taken, search)?, 1);
        let first = next_asked(alloc, &data, &table, &taken, search, 0)?;
        assert_eq!(rt; first.is_some(), true);
        let other = next_asked(alloc, &data, &table, &taken, search, 1)?;
        assert_eq!(rt; other.is_some(), false);
    }
    Ok(())
}

#[test]
fn too_many_trees_are_not_looked_through(rt: HostRuntime) -> Result<(), Fail> {
    let alloc = rt.alloc();
    let data = algebra(alloc)?;
    let table = windows(alloc, 256, false)?;
    let taken = numbers(alloc, 8)?;
    let first = next_asked(alloc, &data, &table, &taken, TreeSearch::Any, 0);
    assert_eq!(rt; first.is_err(), true);
    Ok(())
}

#[test]
fn the_mark_of_the_first_field_stands_behind_all_values(rt: HostRuntime) -> Result<(), Fail> {
    let alloc = rt.alloc();
    let data = algebra(alloc)?;
    let table = wide_windows(alloc, 256)?;
    let columns = vec![in alloc; Column::Blank(NUMBERS, false), Column::Blank(TRUTHS, false)]?;
    let scheme = Scheme::Pre(Vec::from_slice(alloc, &[true, true])?);
    let kind = ActionKind::At(Gate(0));
    let two = OpenComposite {
        kind,
        columns,
        scheme,
    };
    match next_asked(alloc, &data, &table, &two, TreeSearch::AnyBeyond, 0)? {
        None => assert!(rt; false),
        Some(asked) => assert_eq!(rt; asked.number, 65_536),
    }
    Ok(())
}
