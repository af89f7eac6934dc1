// What is kept of nodes.

use crate::samples::{Part, Sample, part_rules, put};
use candidate_verdicts::pieces::Pieces;
use node_trees::origin::Gen;
use spec_core::memory::Memory;
use std::alloc::Global;
use std::test::Fail;
use symbolic_actions::field::ShownField;

// What is known of a part with this number at a generation.
fn told(alloc: Global, pieces: &Pieces, generation: u128, n: u32) -> Result<usize, Memory> {
    let rules = part_rules(alloc, Sample::Together, Some(n))?;
    match pieces.find(Gen(generation), &rules) {
        None => Ok(100),
        Some(None) => Ok(200),
        Some(Some(shown)) => match shown.fields.as_slice() {
            [ShownField::Told(value), ..] => Ok(value.as_slice().len()),
            _ => Ok(300),
        },
    }
}

fn put_part(
    alloc: Global,
    pieces: &mut Pieces,
    generation: u128,
    n: u32,
    part: Part,
) -> Result<(), Memory> {
    let rules = part_rules(alloc, Sample::Together, Some(n))?;
    put(alloc, pieces, generation, rules, part)
}

#[test]
fn the_first_piece_stays_until_its_generation_is_gone(rt: HostRuntime) -> Result<(), Fail> {
    let alloc = rt.alloc();
    let mut pieces = Pieces::new(alloc);
    put_part(alloc, &mut pieces, 1, 4, Part::Told(4))?;
    put_part(alloc, &mut pieces, 1, 5, Part::Nothing)?;
    put_part(alloc, &mut pieces, 2, 4, Part::Nothing)?;
    put_part(alloc, &mut pieces, 3, 4, Part::Told(7))?;
    put_part(alloc, &mut pieces, 1, 4, Part::Nothing)?;
    assert_eq!(rt; told(alloc, &pieces, 1, 4)?, 5);
    assert_eq!(rt; told(alloc, &pieces, 1, 5)?, 200);
    assert_eq!(rt; told(alloc, &pieces, 1, 6)?, 100);
    assert_eq!(rt; told(alloc, &pieces, 2, 4)?, 200);
    pieces.drop_gone(&[Gen(1), Gen(9)]);
    assert_eq!(rt; told(alloc, &pieces, 1, 4)?, 100);
    assert_eq!(rt; told(alloc, &pieces, 1, 5)?, 100);
    assert_eq!(rt; told(alloc, &pieces, 2, 4)?, 200);
    assert_eq!(rt; told(alloc, &pieces, 3, 4)?, 8);
    Ok(())
}
