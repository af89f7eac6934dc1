// A specification with its code, and a term in its names.

use crate::texts::{data, parsed};
use data_fits::fits_data;
use script_text::read_term;
use spec_core::code::Checked;
use spec_core::memory::Memory;
use spec_core::term_text::term_text;
use static_check::compile::compile;
use std::alloc::Global;
use std::test::Fail;

// The alternating bit protocol: four processes, whose bodies have 4, 8, 3 and 3 nodes, and a behaviour of 8.
const ALTERNATING_BIT: &str = "\
specification Abp [send, recv] : noexit
library Boolean, NaturalNumber endlib
behaviour hide s, r, t, u in
  ((Sender [send, s, u] (false) ||| Receiver [recv, r, t] (false))
   |[s, r, t, u]| (Medium [s, r] ||| Acks [t, u]))
where
process Sender [send, s, u] (b : Bool) : noexit :=
  send ?x:Nat; s !b !x; u !b; Sender [send, s, u] (not(b))
endproc
process Receiver [recv, r, t] (b : Bool) : noexit :=
  r !b ?x:Nat; recv !x; t !b; Receiver [recv, r, t] (not(b))
  [] r ?c:Bool ?x:Nat [c ne b]; t !c; Receiver [recv, r, t] (b)
endproc
process Medium [s, r] : noexit :=
  s ?b:Bool ?x:Nat; r !b !x; Medium [s, r]
endproc
process Acks [t, u] : noexit := t ?b:Bool; u !b; Acks [t, u] endproc
endspec
";

// The program of the protocol. One that is refused stops the test.
fn compiled(alloc: Global) -> Result<Checked, Memory> {
    let spec = parsed(alloc, ALTERNATING_BIT)?;
    match compile(alloc, &spec, &data(alloc, true, "")?) {
        Ok(checked) => Ok(checked),
        Err(_) => Err(Memory),
    }
}

// A term that is read by itself, as text.
fn term_of(alloc: Global, checked: &Checked, text: &[u8]) -> Result<String, Memory> {
    if !fits_data(&checked.algebra) {
        return Err(Memory);
    }
    match read_term(alloc, text, checked) {
        Ok(term) => term_text(alloc, &checked.algebra.signature, &term, &[]),
        Err(_) => Ok(String::from_str(alloc, "refused")?),
    }
}

#[test]
fn a_protocol_is_compiled(rt: HostRuntime) -> Result<(), Fail> {
    let checked = compiled(rt.alloc())?;
    assert_eq!(rt; checked.code.len(), 30);
    assert_eq!(rt; checked.processes, 4);
    for (text, due) in [("SUCC(0)", "Succ(0)"), ("x", "refused")] {
        let found = term_of(rt.alloc(), &checked, text.as_bytes())?;
        assert_eq!(rt; found.as_str(), due);
    }
    Ok(())
}
