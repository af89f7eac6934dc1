// What trees show, what is missing, and which queries ask for it, where 0 and 1 are in the window and there are more.

use crate::data::{algebra, offer_of_any, offer_of_one, windows};
use crate::samples::{Part, Sample, part_rules, put, rules, tree};
use candidate_search::searches::TreeSearch;
use candidate_verdicts::asked::verdict;
use candidate_verdicts::pieces::Pieces;
use candidate_verdicts::shown::{first_missing, put_missing, shown_over};
use node_trees::branch::Branch;
use rule_model::rules::Rules;
use spec_core::equation::DataSpec;
use spec_core::memory::Memory;
use spec_core::value::Value;
use spec_core::window::Window;
use std::alloc::Global;
use std::test::Fail;
use symbolic_actions::field::ShownField;
use symbolic_actions::shown::Shown;
use symbolic_plans::composite::ActionKind;

fn put_value(alloc: Global, text: &mut String, front: &str, value: &Value) -> Result<(), Memory> {
    let n = match value.as_slice() {
        [] => 0,
        [_, rest @ ..] => rest.len(),
    };
    let told = format!(in alloc; " {front} {n}")?;
    Ok(text.push_str(told.as_str())?)
}

fn put_shown(alloc: Global, text: &mut String, shown: &Shown) -> Result<(), Memory> {
    match shown.kind {
        ActionKind::Inner => text.push_str("inside")?,
        ActionKind::Exit => text.push_str("ends")?,
        ActionKind::At(gate) => {
            let number = gate.0;
            let told = format!(in alloc; "at {number}")?;
            text.push_str(told.as_str())?;
        }
    }
    for field in &shown.fields {
        match field {
            ShownField::Told(value) => put_value(alloc, text, "told", value)?,
            ShownField::Chosen(value) => put_value(alloc, text, "chosen", value)?,
            ShownField::Given(_) => text.push_str(" given")?,
            ShownField::Free(_) => text.push_str(" free")?,
        }
    }
    Ok(())
}

// The generations of the parts that are missing.
fn put_open(
    alloc: Global,
    text: &mut String,
    pieces: &Pieces,
    branch: &Branch,
    rules: &Rules,
) -> Result<(), Memory> {
    match first_missing(pieces, branch, rules) {
        None => text.push_str("none is first")?,
        Some(part) => {
            let number = part.generation.0;
            let told = format!(in alloc; "first {number}, all")?;
            text.push_str(told.as_str())?;
        }
    }
    let mut parts = Vec::new(alloc);
    put_missing(pieces, branch, rules, &mut parts)?;
    for part in &parts {
        let number = part.generation.0;
        let told = format!(in alloc; " {number}")?;
        text.push_str(told.as_str())?;
    }
    Ok(())
}

// Everything that is asked of a tree.
#[derive(Clone, Copy)]
struct World<'a> {
    algebra: &'a DataSpec,
    windows: &'a [Window],
    pieces: &'a Pieces,
    branch: &'a Branch,
    rules: &'a Rules,
}

// The name of the query, where it asks for the tree.
fn put_asked(
    alloc: Global,
    text: &mut String,
    world: World<'_>,
    name: &str,
    search: TreeSearch<'_>,
) -> Result<(), Memory> {
    let holds = verdict(
        alloc,
        world.algebra,
        world.windows,
        world.pieces,
        world.branch,
        &search,
        world.rules,
    )?;
    match holds {
        Some(true) => Ok(text.push_str(name)?),
        Some(false) | None => Ok(()),
    }
}

// The queries that ask for the tree: for an offer of 1, for none, and beyond for an offer of any number.
fn put_queries(alloc: Global, text: &mut String, world: World<'_>) -> Result<(), Memory> {
    let one = offer_of_one(alloc)?;
    let any = offer_of_any(alloc)?;
    put_asked(alloc, text, world, ", meeting", TreeSearch::Meeting(&one))?;
    put_asked(alloc, text, world, ", any", TreeSearch::Any)?;
    put_asked(alloc, text, world, ", unseen", TreeSearch::Unseen)?;
    put_asked(alloc, text, world, ", beyond", TreeSearch::Beyond(&any))?;
    put_asked(alloc, text, world, ", any beyond", TreeSearch::AnyBeyond)?;
    put_asked(
        alloc,
        text,
        world,
        ", beyond or unseen",
        TreeSearch::BeyondOrUnseen(&any),
    )
}

// What is known of a sample, where its trees of rules have this number, or the mark.
fn told(
    alloc: Global,
    sample: Sample,
    chosen: Option<u32>,
    left: Part,
    right: Part,
) -> Result<String, Memory> {
    let algebra = algebra(alloc)?;
    let windows = windows(alloc)?;
    let branch = tree(alloc, sample)?;
    let rules = rules(alloc, sample, chosen)?;
    let mut pieces = Pieces::new(alloc);
    put(
        alloc,
        &mut pieces,
        1,
        part_rules(alloc, sample, chosen)?,
        left,
    )?;
    put(
        alloc,
        &mut pieces,
        2,
        part_rules(alloc, sample, chosen)?,
        right,
    )?;
    let mut text = String::new(alloc);
    match shown_over(alloc, &algebra, &windows, &pieces, &branch, &rules)? {
        None => put_open(alloc, &mut text, &pieces, &branch, &rules)?,
        Some(None) => text.push_str("nothing")?,
        Some(Some(shown)) => {
            put_shown(alloc, &mut text, &shown)?;
        }
    }
    let world = World {
        algebra: &algebra,
        windows: &windows,
        pieces: &pieces,
        branch: &branch,
        rules: &rules,
    };
    put_queries(alloc, &mut text, world)?;
    Ok(text)
}

const CASES: [(Sample, Option<u32>, Part, Part, &str); 34] = [
    (
        Sample::Together,
        Some(1),
        Part::Unknown,
        Part::Unknown,
        "first 1, all 1 2",
    ),
    (
        Sample::Together,
        Some(1),
        Part::Told(1),
        Part::Unknown,
        "first 2, all 2",
    ),
    (
        Sample::Together,
        Some(1),
        Part::Unknown,
        Part::Told(1),
        "first 1, all 1",
    ),
    (
        Sample::Together,
        Some(1),
        Part::Nothing,
        Part::Unknown,
        "nothing",
    ),
    (
        Sample::Together,
        Some(1),
        Part::Unknown,
        Part::Nothing,
        "nothing",
    ),
    (
        Sample::Together,
        Some(1),
        Part::Told(1),
        Part::Chosen(1),
        "at 0 told 1, meeting, any",
    ),
    (
        Sample::Together,
        Some(1),
        Part::Told(0),
        Part::Chosen(1),
        "nothing",
    ),
    (
        Sample::Together,
        Some(1),
        Part::Ends(1),
        Part::Chosen(1),
        "nothing",
    ),
    (
        Sample::Together,
        Some(1),
        Part::Ends(1),
        Part::Ends(1),
        "ends chosen 1, any, unseen",
    ),
    (
        Sample::Together,
        Some(3),
        Part::Told(3),
        Part::Chosen(3),
        "at 0 told 3, any",
    ),
    (
        Sample::Together,
        Some(3),
        Part::Chosen(3),
        Part::Chosen(3),
        "at 0 chosen 3",
    ),
    (
        Sample::Together,
        None,
        Part::Free,
        Part::Free,
        "at 0 free, beyond, any beyond, beyond or unseen",
    ),
    (
        Sample::Together,
        None,
        Part::Given,
        Part::Free,
        "at 0 given, beyond, any beyond, beyond or unseen",
    ),
    (
        Sample::Together,
        None,
        Part::Given,
        Part::Chosen(3),
        "at 0 chosen 3",
    ),
    (
        Sample::Together,
        None,
        Part::Given,
        Part::Chosen(1),
        "at 0 chosen 1, beyond, any beyond, beyond or unseen",
    ),
    (Sample::Together, None, Part::Told(1), Part::Free, "nothing"),
    (
        Sample::Hidden,
        Some(1),
        Part::Chosen(1),
        Part::Chosen(1),
        "inside, any, unseen",
    ),
    (
        Sample::Hidden,
        Some(3),
        Part::Chosen(3),
        Part::Chosen(3),
        "nothing",
    ),
    (
        Sample::Hidden,
        Some(3),
        Part::Told(3),
        Part::Chosen(3),
        "inside, any, unseen",
    ),
    (
        Sample::Hidden,
        None,
        Part::Free,
        Part::Free,
        "inside, any beyond, beyond or unseen",
    ),
    (
        Sample::Alone,
        Some(1),
        Part::Told(1),
        Part::Unknown,
        "at 0 told 1, meeting, any",
    ),
    (
        Sample::Alone,
        Some(1),
        Part::Unknown,
        Part::Nothing,
        "first 1, all 1",
    ),
    (
        Sample::AloneAtAll,
        Some(1),
        Part::Told(1),
        Part::Unknown,
        "nothing",
    ),
    (
        Sample::Chosen,
        Some(1),
        Part::Unknown,
        Part::Told(1),
        "at 0 told 1, meeting, any",
    ),
    (
        Sample::Enabling,
        Some(1),
        Part::Told(1),
        Part::Unknown,
        "at 0 told 1, meeting, any",
    ),
    (
        Sample::Enabling,
        Some(1),
        Part::Ends(1),
        Part::Unknown,
        "nothing",
    ),
    (
        Sample::Enabled,
        Some(1),
        Part::Ends(1),
        Part::Unknown,
        "inside, any, unseen",
    ),
    (
        Sample::Enabled,
        Some(3),
        Part::Ends(3),
        Part::Unknown,
        "nothing",
    ),
    (
        Sample::Enabled,
        Some(1),
        Part::Told(1),
        Part::Unknown,
        "nothing",
    ),
    (
        Sample::Ended,
        Some(1),
        Part::Ends(1),
        Part::Unknown,
        "ends chosen 1, any, unseen",
    ),
    (
        Sample::Disabling,
        Some(1),
        Part::Unknown,
        Part::Told(1),
        "at 0 told 1, meeting, any",
    ),
    (
        Sample::Relabelled,
        Some(1),
        Part::Told(1),
        Part::Unknown,
        "at 2 told 1, any",
    ),
    (
        Sample::Unfit,
        Some(1),
        Part::Unknown,
        Part::Unknown,
        "nothing",
    ),
    (
        Sample::Over,
        Some(1),
        Part::Unknown,
        Part::Unknown,
        "nothing",
    ),
];

#[test]
fn trees_show_what_their_nodes_make(rt: HostRuntime) -> Result<(), Fail> {
    let alloc = rt.alloc();
    for (sample, chosen, left, right, due) in CASES {
        let text = told(alloc, sample, chosen, left, right)?;
        assert_eq!(rt; text.as_str(), due);
    }
    Ok(())
}
