// What is found for each query, where two numbers are in the window and there are more.

use crate::data::{NUMBERS, TRUTHS, algebra, number, offer, truth, windows};
use crate::samples::{Sample, composite, found};
use candidate_search::searches::TreeSearch;
use rule_model::offer::{Field, Offer};
use spec_core::memory::Memory;
use std::alloc::Global;
use std::test::Fail;

// The offers of the tests.
#[derive(Clone, Copy)]
enum Offered {
    Nothing,
    AnyNumber,
    One,
    Three,
    AnyTruths,
    FalseFirst,
    TrueLast,
}

fn offer_of(alloc: Global, which: Offered) -> Result<Offer, Memory> {
    let fields = match which {
        Offered::Nothing => Vec::new(alloc),
        Offered::AnyNumber => vec![in alloc; Field::Take(NUMBERS)]?,
        Offered::One => vec![in alloc; Field::Give(number(alloc, 1)?)]?,
        Offered::Three => vec![in alloc; Field::Give(number(alloc, 3)?)]?,
        Offered::AnyTruths => vec![in alloc; Field::Take(TRUTHS), Field::Take(TRUTHS)]?,
        Offered::FalseFirst => {
            vec![in alloc; Field::Give(truth(alloc, false)?), Field::Take(TRUTHS)]?
        }
        Offered::TrueLast => {
            vec![in alloc; Field::Take(TRUTHS), Field::Give(truth(alloc, true)?)]?
        }
    };
    Ok(offer(fields))
}

// The kinds of queries.
#[derive(Clone, Copy)]
enum Asks {
    Meeting,
    Any,
    Unseen,
    Beyond,
    AnyBeyond,
    BeyondOrUnseen,
}

fn search(asks: Asks, offer: &Offer) -> TreeSearch<'_> {
    match asks {
        Asks::Meeting => TreeSearch::Meeting(offer),
        Asks::Any => TreeSearch::Any,
        Asks::Unseen => TreeSearch::Unseen,
        Asks::Beyond => TreeSearch::Beyond(offer),
        Asks::AnyBeyond => TreeSearch::AnyBeyond,
        Asks::BeyondOrUnseen => TreeSearch::BeyondOrUnseen(offer),
    }
}

const CASES: [(Sample, Asks, Offered, &str); 26] = [
    (
        Sample::Number,
        Asks::Any,
        Offered::Nothing,
        "0: pre 0; 1: pre 1; ",
    ),
    (
        Sample::Number,
        Asks::AnyBeyond,
        Offered::Nothing,
        "2: pre ?; ",
    ),
    (Sample::Number, Asks::Unseen, Offered::Nothing, ""),
    (Sample::Number, Asks::Meeting, Offered::Nothing, ""),
    (
        Sample::Number,
        Asks::Meeting,
        Offered::AnyNumber,
        "0: pre 0; 1: pre 1; ",
    ),
    (
        Sample::Number,
        Asks::Beyond,
        Offered::AnyNumber,
        "2: pre ?; ",
    ),
    (
        Sample::Number,
        Asks::BeyondOrUnseen,
        Offered::AnyNumber,
        "2: pre ?; ",
    ),
    (Sample::Number, Asks::Meeting, Offered::One, "0: pre 1; "),
    (Sample::Number, Asks::Meeting, Offered::Three, "0: pre 3; "),
    (Sample::Number, Asks::Beyond, Offered::Three, ""),
    (Sample::Number, Asks::Meeting, Offered::AnyTruths, ""),
    (
        Sample::Three,
        Asks::Meeting,
        Offered::Three,
        "0: both (pre 3) (both (pre 3) (pre 3)); ",
    ),
    (
        Sample::Truths,
        Asks::Any,
        Offered::Nothing,
        "0: pre t t; 1: pre t f; 2: pre f t; 3: pre f f; ",
    ),
    (
        Sample::Truths,
        Asks::Meeting,
        Offered::AnyTruths,
        "0: pre t t; 1: pre t f; 2: pre f t; 3: pre f f; ",
    ),
    (
        Sample::Truths,
        Asks::Meeting,
        Offered::FalseFirst,
        "0: pre f t; 1: pre f f; ",
    ),
    (
        Sample::Truths,
        Asks::Meeting,
        Offered::TrueLast,
        "0: pre t t; 1: pre f t; ",
    ),
    (Sample::Truths, Asks::AnyBeyond, Offered::Nothing, ""),
    (Sample::Given, Asks::Any, Offered::Nothing, ""),
    (
        Sample::Given,
        Asks::AnyBeyond,
        Offered::Nothing,
        "0: both (val ? (pre)) (pre 0); 1: both (val ? (pre)) (pre 1); 2: both (val ? (pre)) (pre ?); ",
    ),
    (Sample::Given, Asks::Meeting, Offered::Three, ""),
    (
        Sample::Given,
        Asks::Beyond,
        Offered::Three,
        "0: both (val ? (pre)) (pre 0); 1: both (val ? (pre)) (pre 1); 2: both (val ? (pre)) (pre 3); 3: both (val ? (pre)) (pre ?); ",
    ),
    (
        Sample::Hidden,
        Asks::Unseen,
        Offered::Nothing,
        "0: hide (both (pre t) (pre t)); 1: hide (both (pre f) (pre f)); ",
    ),
    (Sample::Hidden, Asks::Meeting, Offered::Nothing, ""),
    (Sample::Hidden, Asks::BeyondOrUnseen, Offered::AnyNumber, ""),
    (
        Sample::Ended,
        Asks::Unseen,
        Offered::Nothing,
        "0: enend (exit 0); 1: enend (exit 1); ",
    ),
    (
        Sample::Ended,
        Asks::BeyondOrUnseen,
        Offered::One,
        "2: enend (exit ?); ",
    ),
];

#[test]
fn searches_find_the_trees_in_order(rt: HostRuntime) -> Result<(), Fail> {
    let alloc = rt.alloc();
    let data = algebra(alloc)?;
    let table = windows(alloc, 2, false)?;
    for (sample, asks, which, due) in CASES {
        let parts = composite(alloc, sample)?;
        let offer = offer_of(alloc, which)?;
        let told = found(alloc, &data, &table, &parts, search(asks, &offer))?;
        assert_eq!(rt; told.as_str(), due);
    }
    Ok(())
}
