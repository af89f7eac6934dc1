// What is shown by each rule, with values and marks. Of B both values are shown, of N only 0 and s(0).

use crate::program::shown;
use spec_core::items::Gate;
use spec_core::memory::Memory;
use std::alloc::Global;
use std::test::Fail;

// Functionality, behaviour, tree, and what the rules give.
type Case = (&'static str, &'static str, &'static str, &'static str);

// Prefixes: fields that are told, chosen, and marks; slots that don't fit.
const PREFIXES: [Case; 12] = [
    ("noexit", "a !s(0) ?x : N !t; stop", "pre:0", "a !s0 ?0 !t"),
    ("noexit", "a !s(0) ?x : N !t; stop", "pre:?", "a !s0 ?N !t"),
    ("noexit", "a ?x : N; stop", "pre:ss0", "a ?ss0"),
    ("noexit", "a ?x : B; stop", "pre:?", "nothing"),
    ("noexit", "a ?x : N; stop", "pre:t", "nothing"),
    ("noexit", "a ?x : N; stop", "pre:_", "nothing"),
    ("noexit", "a ?x : N; stop", "pre", "nothing"),
    ("noexit", "a ?x : N; stop", "pre:0:0", "nothing"),
    ("noexit", "a !p(s(0)); stop", "pre", "a !0"),
    ("noexit", "a; stop", "int", "nothing"),
    ("noexit", "i; stop", "int", "i"),
    ("noexit", "stop", "pre", "nothing"),
];

// Predicates: one that holds, one that fails, and one with a mark; exits.
const PREDICATES_AND_EXITS: [Case; 7] = [
    ("noexit", "a ?x : N [p(x) = 0]; stop", "pre:s0", "a ?s0"),
    ("noexit", "a ?x : N [p(x) = 0]; stop", "pre:ss0", "nothing"),
    ("noexit", "a ?x : N [p(x) = 0]; stop", "pre:?", "a ?N"),
    ("exit(N, B)", "exit(p(0), any B)", "exit:f", "exit !0 ?f"),
    ("exit(N, B)", "exit(p(0), any B)", "exit:0", "nothing"),
    ("exit(N, B)", "exit(p(0), any B)", "exit:?", "nothing"),
    ("exit(N)", "exit(any N)", "exit:?", "exit ?N"),
];

// Choices; guards and bindings.
const CHOICES: [Case; 13] = [
    ("noexit", "a; stop [] b; stop", "chl pre", "a"),
    ("noexit", "a; stop [] b; stop", "chr pre", "b"),
    ("noexit", "a; stop [] b; stop", "pre", "nothing"),
    (
        "noexit",
        "choice x : N [] a !s(x); stop",
        "val:s0 pre",
        "a !ss0",
    ),
    (
        "noexit",
        "choice x : N [] a !s(x); stop",
        "val:ss0 pre",
        "nothing",
    ),
    (
        "noexit",
        "choice x : N [] a !s(x); stop",
        "val:? pre",
        "a !N",
    ),
    (
        "noexit",
        "choice x : B [] a !x; stop",
        "val:? pre",
        "nothing",
    ),
    (
        "noexit",
        "choice g in [b, c] [] g; stop",
        "gate2 rel pre",
        "c",
    ),
    (
        "noexit",
        "choice g in [b] [] g; stop",
        "gate2 rel pre",
        "nothing",
    ),
    (
        "noexit",
        "choice x : N [] [x = 0] -> a; stop",
        "val:0 guard pre",
        "a",
    ),
    (
        "noexit",
        "choice x : N [] [x = 0] -> a; stop",
        "val:s0 guard pre",
        "nothing",
    ),
    (
        "noexit",
        "choice x : N [] [x = 0] -> a; stop",
        "val:? guard pre",
        "a",
    ),
    (
        "noexit",
        "let y : N = s(0) in a !y; stop",
        "let pre",
        "a !s0",
    ),
];

// Parallel composition.
const SIDES: [Case; 11] = [
    ("noexit", "a; stop |[b]| b; stop", "parl pre", "a"),
    ("noexit", "a; stop |[b]| b; stop", "parr pre", "nothing"),
    (
        "noexit",
        "a !s(0); stop || a ?x : N; stop",
        "both pre pre:s0",
        "a !s0",
    ),
    (
        "noexit",
        "a !s(0); stop || a ?x : N; stop",
        "both pre pre:0",
        "nothing",
    ),
    (
        "noexit",
        "a !s(0); stop || a ?x : N; stop",
        "both pre pre:?",
        "nothing",
    ),
    (
        "noexit",
        "a ?x : N; stop || a ?x : N; stop",
        "both pre:? pre:?",
        "a ?N",
    ),
    (
        "noexit",
        "a ?x : N; stop || a ?x : B; stop",
        "both pre:0 pre:t",
        "nothing",
    ),
    (
        "noexit",
        "(choice x : N [] a !x; stop) || a !s(0); stop",
        "both val:? pre pre",
        "a !s0",
    ),
    (
        "noexit",
        "(choice x : N [] a !x; stop) || a ?y : N; stop",
        "both val:? pre pre:?",
        "a !N",
    ),
    ("noexit", "a; stop ||| a; stop", "both pre pre", "nothing"),
    ("exit", "exit ||| exit", "both exit exit", "exit"),
];

// Hiding: what nothing gives lies in its window.
const HIDING: [Case; 5] = [
    ("noexit", "hide a in a ?x : N; stop", "hide pre:s0", "i"),
    (
        "noexit",
        "hide a in a ?x : N; stop",
        "hide pre:ss0",
        "nothing",
    ),
    ("noexit", "hide a in a ?x : N; stop", "hide pre:?", "i"),
    ("noexit", "hide a in b; stop", "pass pre", "b"),
    ("noexit", "hide a in a; stop", "pass pre", "nothing"),
];

// Enabling and disabling; calls.
const REST: [Case; 7] = [
    (
        "noexit",
        "exit(0) >> accept x : N in a !x; stop",
        "enend exit",
        "i",
    ),
    (
        "noexit",
        "exit(any N) >> accept x : N in a !x; stop",
        "enend exit:ss0",
        "nothing",
    ),
    ("noexit", "a; exit >> b; stop", "enstep pre", "a"),
    ("exit", "exit [> b; exit", "disend exit", "exit"),
    ("exit", "a; exit [> b; exit", "disstep pre", "a"),
    ("exit", "exit [> b; exit", "distake pre", "b"),
    (
        "noexit",
        "P [c] (p(s(0))) where process P [a] (x : N) : noexit := a !x; stop endproc",
        "call rel pre",
        "c !0",
    ),
];

// The first case that shows something else, and what; nothing where there is none.
fn first_wrong(alloc: Global, cases: &[Case], budget: u64) -> Result<String, Memory> {
    for case in cases {
        let (ends, behaviour, rules, due) = *case;
        let told = shown(alloc, ends, behaviour, Vec::new(alloc), rules, budget)?;
        if told.as_str() != due {
            return Ok(format!(in alloc; "{behaviour}: {rules}: {told}")?);
        }
    }
    Ok(String::new(alloc))
}

#[test]
fn each_rule_shows_what_it_says(rt: HostRuntime) -> Result<(), Fail> {
    let alloc = rt.alloc();
    assert_eq!(rt; first_wrong(alloc, &PREFIXES, 100)?.as_str(), "");
    assert_eq!(rt;
        first_wrong(alloc, &PREDICATES_AND_EXITS, 100)?.as_str(),
        ""
    );
    assert_eq!(rt; first_wrong(alloc, &CHOICES, 100)?.as_str(), "");
    assert_eq!(rt; first_wrong(alloc, &SIDES, 100)?.as_str(), "");
    assert_eq!(rt; first_wrong(alloc, &HIDING, 100)?.as_str(), "");
    assert_eq!(rt; first_wrong(alloc, &REST, 100)?.as_str(), "");
    Ok(())
}

// A relabelled origin: what acts stands under an operator, a call has other gates.
#[test]
fn origins_are_relabelled(rt: HostRuntime) -> Result<(), Fail> {
    let alloc = rt.alloc();
    for (behaviour, rules, due) in [
        ("a; stop", "rel pre", "b"),
        ("a; stop", "pre", "nothing"),
        (
            "P [a] where process P [c] : noexit := c; stop endproc",
            "call rel pre",
            "b",
        ),
    ] {
        let pairs = vec![in alloc; (Gate(0), Gate(1))]?;
        let told = shown(alloc, "noexit", behaviour, pairs, rules, 100)?;
        assert_eq!(rt; told.as_str(), due, "{behaviour}: {rules}");
    }
    Ok(())
}

// With no use of an equation: the first term that is asked and has no value stops, and a premise that failed before asks nothing more.
const STOPS: [Case; 9] = [
    ("noexit", "a !p(0); stop", "pre", "spent p0"),
    ("noexit", "a !0 !p(0) !p(s(0)); stop", "pre", "spent p0"),
    (
        "noexit",
        "[0 = s(0)] -> a !p(0); stop",
        "guard pre",
        "nothing",
    ),
    ("noexit", "[p(0) = 0] -> a; stop", "guard pre", "spent p0"),
    ("noexit", "b; stop [] a !p(0); stop", "chl pre", "b"),
    ("noexit", "a ?x : N [p(x) = 0]; stop", "pre:s0", "spent ps0"),
    ("noexit", "a ?x : N [p(x) = 0]; stop", "pre:?", "a ?N"),
    (
        "noexit",
        "a !0; stop |[a]| a !p(0); stop",
        "both pre pre",
        "spent p0",
    ),
    (
        "noexit",
        "stop |[a]| a !p(0); stop",
        "both pre pre",
        "nothing",
    ),
];

#[test]
fn a_stop_names_the_first_term(rt: HostRuntime) -> Result<(), Fail> {
    let alloc = rt.alloc();
    assert_eq!(rt; first_wrong(alloc, &STOPS, 0)?.as_str(), "");
    Ok(())
}
