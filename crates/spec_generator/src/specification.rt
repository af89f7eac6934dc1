// The specification.

ghost use Rattle.std.specs.Prelude.{◌≡◌, ◌<◌, ◌-◌, ◌++◌, OnOk, codes, flat_map, string_bytes};
ghost use Rattle.std.specs.List.{join_by, range_with_len, repeat};
ghost use Rattle.spec_generator.specs.Links.{between, link};
ghost use Rattle.spec_generator.specs.Specifications.{behaviour, cell, chain, ending, gate, heading, specification_text};

use crate::pieces::put;
use spec_core::memory::Memory;

// Appends a cell of the chain.
fn put_cell(out: &mut String, number: u32) -> Result<(), Memory>
    requires { 0 < number }
    ensures { OnOk result (string_bytes out.new ≡ string_bytes out.old ++ cell number) }
{
    let before = number - 1;
    Ok(write!(out, "Cell [g{before}, g{number}]")?)
}

// Appends what stands between this cell and the next one.
fn put_between(out: &mut String, number: u32, size: u32) -> Result<(), Memory>
    requires { number < size }
    ensures { OnOk result (string_bytes out.new ≡ string_bytes out.old ++ between size number) }
{
    write!(out, " |[g{number}]| ")?;
    if number + 1 < size {
        put(out, "(")
    } else {
        Ok(())
    }
}

// Appends a cell that isn't the last one, and what stands between it and the next one.
fn put_link(out: &mut String, number: u32, size: u32) -> Result<(), Memory>
    requires some { 0 < number }
    requires more { number < size }
    ensures { OnOk result (string_bytes out.new ≡ string_bytes out.old ++ link size number) }
{
    put_cell(out, number)?;
    put_between(out, number, size)
}

// Appends all cells but the last one.
fn put_links(out: &mut String, size: u32) -> Result<(), Memory>
    requires { 0 < size }
    ensures { OnOk result (string_bytes out.new ≡ string_bytes out.old ++ flat_map (link size) (range_with_len 1 (size - 1))) }
{
    for number in 1..size {
        put_link(out, number, size)?;
    }
    Ok(())
}

// Appends closing brackets.
fn put_closings(out: &mut String, count: u32) -> Result<(), Memory>
    ensures { OnOk result (string_bytes out.new ≡ string_bytes out.old ++ repeat count (codes ")")) }
{
    for _turn in 0..count {
        put(out, ")")?;
    }
    Ok(())
}

// Appends a chain of two cells or more.
fn put_chain(out: &mut String, size: u32) -> Result<(), Memory>
    requires { 1 < size }
    ensures { OnOk result (string_bytes out.new ≡ string_bytes out.old ++ chain 1 (size - 1)) }
{
    put_links(out, size)?;
    put_cell(out, size)?;
    let count = size - 2;
    put_closings(out, count)
}

// Appends the names of the gates between cells.
fn put_hidden(out: &mut String, size: u32) -> Result<(), Memory>
    requires { 1 < size }
    ensures { OnOk result (string_bytes out.new ≡ string_bytes out.old ++ join_by gate (codes ", ") (range_with_len 1 (size - 1))) }
{
    put(out, "g1")?;
    for number in 2..size {
        write!(out, ", g{number}")?;
    }
    Ok(())
}

// Appends the chain with the gates between cells hidden.
fn put_behaviour(out: &mut String, size: u32) -> Result<(), Memory>
    requires { 0 < size }
    ensures { OnOk result (string_bytes out.new ≡ string_bytes out.old ++ behaviour size) }
{
    if 1 < size {
        put(out, "hide ")?;
        put_hidden(out, size)?;
        put(out, " in (")?;
        put_chain(out, size)?;
        put(out, ")")
    } else {
        put_cell(out, 1)
    }
}

// Appends what stands before the behaviour.
fn put_heading(out: &mut String, size: u32) -> Result<(), Memory>
    ensures { OnOk result (string_bytes out.new ≡ string_bytes out.old ++ heading size) }
{
    writeln!(out, "specification Gen [g0, g{size}] : noexit")?;
    put(out, "library Boolean, NaturalNumber endlib\n")?;
    put(out, "behaviour ")
}

// Appends what stands behind the behaviour.
fn put_ending(out: &mut String) -> Result<(), Memory>
    ensures { OnOk result (string_bytes out.new ≡ string_bytes out.old ++ ending) }
{
    put(
        out,
        "\nwhere process Cell [a, b] : noexit := a ?x:Nat; b !x; Cell [a, b] endproc\nendspec\n",
    )
}

// Appends the whole text.
pub fn put_specification(out: &mut String, size: u32) -> Result<(), Memory>
    requires { 0 < size }
    ensures { OnOk result (string_bytes out.new ≡ string_bytes out.old ++ specification_text size) }
{
    put_heading(out, size)?;
    put_behaviour(out, size)?;
    put_ending(out)
}
