// Constructs are read where they stand.
//
// The functions that call each other keep little while they do, and none of them is merged with another: what stands before and behind the
// parts of a construct is read and put out by functions that return before the parts are read, or are called behind them.

ghost use Rattle.std.specs.Prelude.{◌≡◌, IfOk, OnOk, option_map};
ghost use Rattle.static_constructs.specs.Constructs.{chooses, composes, enables, disables};
ghost use Rattle.static_constructs.specs.Views.{construct_of};
ghost use Rattle.static_readings.specs.Outputs.{HasRead};
ghost use Rattle.static_readings.specs.Readings.{IsRead};
ghost use Rattle.static_readings.specs.Views.{functionality_of, output_of};
ghost use Rattle.static_compiler.specs.Overs.{whole_of};
ghost use Rattle.static_compiler.specs.Parts.{IsPartRead};

use crate::closing::close;
use crate::joining::{Joining, join};
use crate::leaves::{read_call, read_exit, read_stop};
use crate::opening::{open, open_parallel, open_right};
use crate::over::Over;
use crate::read_part::ReadPart;
use lotos_ast::behaviour::Operator;
use lotos_ast::declaration::Declaration;
use lotos_ast::place::Place;
use spec_core::memory::Memory;
use static_constructs::construct::Construct;
use static_readings::functionality::Functionality;
use static_readings::output::Output;
use static_readings::site::Site;
use std::alloc::Global;

/// A construct where it stands: its nodes are put behind those that are there, its refusals behind those before, and it is answered how it
/// ends, if nothing hinders it. The site is found again as it was.
#[inline(never)]
#[cycle(reading)]
pub fn read<'a>(
    alloc: Global,
    site: &mut Site<'a>,
    construct: &Construct<'a>,
    out: &mut Output,
) -> Result<Option<Functionality>, Memory>
    ensures read { IfOk result (λ found. HasRead (λ from. IsRead site.old from (construct_of construct.now)) (output_of out.old)
        (output_of out.new) (option_map functionality_of found)) }
    ensures site { OnOk result (site.new ≡ site.old) }
{
    match construct {
        Construct::Stop => read_stop(out),
        Construct::Exit { values } => read_exit(alloc, site, values, out),
        Construct::Call {
            name,
            gates,
            values,
        } => read_call(alloc, site, name, gates, values, out),
        Construct::Inner { rest } => read_around(alloc, site, Over::Inner, rest, out),
        Construct::Act {
            gate,
            offers,
            predicate,
            rest,
        } => {
            let over = Over::Act {
                gate: *gate,
                offers: *offers,
                predicate: *predicate,
            };
            read_around(alloc, site, over, rest, out)
        }
        Construct::Guard { condition, inner } => {
            read_around(alloc, site, Over::Guard(*condition), inner, out)
        }
        Construct::Let { bindings, inner } => {
            read_around(alloc, site, Over::Let(*bindings), inner, out)
        }
        Construct::Values {
            declarations,
            inner,
        } => read_around(alloc, site, Over::Values(*declarations), inner, out),
        Construct::Gates { choices, inner } => {
            read_around(alloc, site, Over::Gates(*choices), inner, out)
        }
        Construct::Hide { gates, inner } => {
            read_around(alloc, site, Over::Hide(*gates), inner, out)
        }
        Construct::Par {
            gate,
            gates,
            operator,
            inner,
        } => {
            let over = Over::Par {
                gate: *gate,
                gates: *gates,
                operator: *operator,
            };
            read_around(alloc, site, over, inner, out)
        }
        Construct::Choice { place, left, right } => {
            read_choice(alloc, site, *place, left, right, out)
        }
        Construct::Disable { place, left, right } => {
            read_disable(alloc, site, *place, left, right, out)
        }
        Construct::Parallel {
            place,
            operator,
            left,
            right,
        } => read_parallel(alloc, site, *place, operator, left, right, out),
        Construct::Enable {
            place,
            left,
            accepts,
            right,
        } => read_enable(alloc, site, *place, left, accepts, right, out),
    }
}

// A construct over one part.
#[inline(never)]
#[cycle(reading)]
fn read_around<'a>(
    alloc: Global,
    site: &mut Site<'a>,
    over: Over<'a>,
    part: &Construct<'a>,
    out: &mut Output,
) -> Result<Option<Functionality>, Memory>
    ensures read { IfOk result (λ found. HasRead (λ from. IsRead site.old from (whole_of over.entry (construct_of part.now)))
        (output_of out.old) (output_of out.new) (option_map functionality_of found)) }
    ensures site { OnOk result (site.new ≡ site.old) }
{
    let opened = open(alloc, site, over, out)?;
    let found = read(alloc, site, part, out)?;
    site.leave(opened.mark.variables, opened.mark.gates);
    close(alloc, opened, found, out)
}

// One of two parts.
#[inline(never)]
#[cycle(reading)]
fn read_part<'a>(
    alloc: Global,
    site: &mut Site<'a>,
    part: &Construct<'a>,
    out: &mut Output,
) -> Result<ReadPart, Memory>
    ensures read { IfOk result (λ p. IsPartRead site.old (construct_of part.now) (output_of out.old) (output_of out.new) p) }
    ensures site { OnOk result (site.new ≡ site.old) }
{
    let from = out.code.len();
    let ends = read(alloc, site, part, out)?;
    let last = out.last()?;
    Ok(ReadPart { from, last, ends })
}

// A choice of two parts.
#[inline(never)]
#[cycle(reading)]
fn read_choice<'a>(
    alloc: Global,
    site: &mut Site<'a>,
    place: Place,
    left: &Construct<'a>,
    right: &Construct<'a>,
    out: &mut Output,
) -> Result<Option<Functionality>, Memory>
    ensures read { IfOk result (λ found. HasRead (λ from. IsRead site.old from (chooses place (construct_of left.now)
        (construct_of right.now))) (output_of out.old) (output_of out.new) (option_map functionality_of found)) }
    ensures site { OnOk result (site.new ≡ site.old) }
{
    let first = read_part(alloc, site, left, out)?;
    let second = read_part(alloc, site, right, out)?;
    join(alloc, place, Some(Joining::Choice), first, second, out)
}

// A part, and one that may break into it.
#[inline(never)]
#[cycle(reading)]
fn read_disable<'a>(
    alloc: Global,
    site: &mut Site<'a>,
    place: Place,
    left: &Construct<'a>,
    right: &Construct<'a>,
    out: &mut Output,
) -> Result<Option<Functionality>, Memory>
    ensures read { IfOk result (λ found. HasRead (λ from. IsRead site.old from (disables place (construct_of left.now)
        (construct_of right.now))) (output_of out.old) (output_of out.new) (option_map functionality_of found)) }
    ensures site { OnOk result (site.new ≡ site.old) }
{
    let first = read_part(alloc, site, left, out)?;
    let second = read_part(alloc, site, right, out)?;
    join(alloc, place, Some(Joining::Disable), first, second, out)
}

// Two parts beside each other.
#[inline(never)]
#[cycle(reading)]
fn read_parallel<'a>(
    alloc: Global,
    site: &mut Site<'a>,
    place: Place,
    operator: &Operator,
    left: &Construct<'a>,
    right: &Construct<'a>,
    out: &mut Output,
) -> Result<Option<Functionality>, Memory>
    ensures read { IfOk result (λ found. HasRead (λ from. IsRead site.old from (composes place operator.now (construct_of left.now)
        (construct_of right.now))) (output_of out.old) (output_of out.new) (option_map functionality_of found)) }
    ensures site { OnOk result (site.new ≡ site.old) }
{
    let joining = open_parallel(alloc, site, operator, out)?;
    let first = read_part(alloc, site, left, out)?;
    let second = read_part(alloc, site, right, out)?;
    join(alloc, place, joining, first, second, out)
}

// A part, and what follows when it ends.
#[inline(never)]
#[cycle(reading)]
fn read_enable<'a>(
    alloc: Global,
    site: &mut Site<'a>,
    place: Place,
    left: &Construct<'a>,
    accepts: &[Declaration],
    right: &Construct<'a>,
    out: &mut Output,
) -> Result<Option<Functionality>, Memory>
    ensures read { IfOk result (λ found. HasRead (λ from. IsRead site.old from (enables place (construct_of left.now) accepts.now
        (construct_of right.now))) (output_of out.old) (output_of out.new) (option_map functionality_of found)) }
    ensures site { OnOk result (site.new ≡ site.old) }
{
    let first = read_part(alloc, site, left, out)?;
    let opened = open_right(alloc, site, accepts, out)?;
    let second = read_part(alloc, site, right, out)?;
    site.leave(opened.mark.variables, opened.mark.gates);
    join(alloc, place, opened.joining, first, second, out)
}
