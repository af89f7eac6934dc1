// The script.

ghost use Rattle.std.specs.Prelude.{◌≡◌, ◌<◌, ◌++◌, OnOk, string_bytes};
ghost use Rattle.spec_generator.specs.Scripts.{numeral, pair, script_text};

use crate::numbers::{draw, first, next};
use crate::pieces::put;
use spec_core::memory::Memory;

// So many times Succ round 0.
fn numeral(count: u64) -> &'static str
    requires { count < 4 }
    ensures { result.now ≡ numeral count }
{
    match count {
        0 => "0",
        1 => "Succ(0)",
        2 => "Succ(Succ(0))",
        _ => "Succ(Succ(Succ(0)))",
    }
}

// Appends the lines by which a number goes in, and a number comes out.
fn put_pair(out: &mut String, size: u32, count: u64) -> Result<(), Memory>
    requires { count < 4 }
    ensures { OnOk result (string_bytes out.new ≡ string_bytes out.old ++ pair size count) }
{
    put(out, "1: g0 !")?;
    put(out, numeral(count))?;
    Ok(write!(out, "\n1: g{size} ?Nat\n")?)
}

// Appends the script.
pub fn put_script(out: &mut String, seed: u32, size: u32) -> Result<(), Memory>
    ensures { OnOk result (string_bytes out.new ≡ string_bytes out.old ++ script_text seed size) }
{
    let mut number = first(seed);
    for _turn in 0..size {
        number = next(number);
        put_pair(out, size, draw(number))?;
    }
    Ok(())
}
