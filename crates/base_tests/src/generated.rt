// Generated texts.

use spec_generator::generate;
use std::test::Fail;

const THREE_CELLS: &str = "\
specification Gen [g0, g3] : noexit
library Boolean, NaturalNumber endlib
behaviour hide g1, g2 in (Cell [g0, g1] |[g1]| (Cell [g1, g2] |[g2]| Cell [g2, g3]))
where process Cell [a, b] : noexit := a ?x:Nat; b !x; Cell [a, b] endproc
endspec
";

const THREE_PAIRS: &str = "\
1: g0 !Succ(Succ(0))
1: g3 ?Nat
1: g0 !Succ(Succ(0))
1: g3 ?Nat
1: g0 !Succ(0)
1: g3 ?Nat
";

// The texts of the seed 1 for three cells, and of the greatest seed for one.
#[test]
fn generated_texts_are_as_written_out(rt: HostRuntime) -> Result<(), Fail> {
    let (specification, script) = generate(rt.alloc(), 1, 3)?;
    assert!(rt; specification.as_str() == THREE_CELLS);
    assert!(rt; script.as_str() == THREE_PAIRS);
    let (_, script) = generate(rt.alloc(), 4_294_967_295, 1)?;
    assert!(rt; script.as_str() == "1: g0 !Succ(0)\n1: g1 ?Nat\n");
    Ok(())
}

// The texts of the greatest size are made too.
#[test]
fn texts_of_the_greatest_size_are_made(rt: HostRuntime) -> Result<(), Fail> {
    let (specification, script) = generate(rt.alloc(), 7, 64)?;
    assert!(rt;
        specification
            .as_bytes()
            .starts_with(b"specification Gen [g0, g64] : noexit\n")
    );
    assert!(rt;
        script
            .as_bytes()
            .starts_with(b"1: g0 !0\n1: g64 ?Nat\n1: g0 !Succ(Succ(0))\n")
    );
    Ok(())
}
