// The pieces of a term read from the right.

ghost use Rattle.std.specs.Prelude.{◌≡◌, ◌++◌, ◌-◌, option_map, IfOk, OnOk, MatchOption, Some, None, drop, length, map, reverse, take};
ghost use Rattle.spec_core.specs.Numbers.{op_number, sort_number};
ghost use Rattle.spec_core.specs.Theories.{operation_of, operations_of, theory_of};
ghost use Rattle.value_reader.specs.Stands.{first_at, is_call, is_written, opened_by, step, step_before, step_behind, step_call};
ghost use Rattle.value_reader.specs.Stands.{underscored, run, nothing_read};
ghost use Rattle.value_reader.specs.Views.{Took, applied_in, bracket_of, bytes_of, piece_of, state_of};

use crate::piece::Piece;
use spec_core::equation::DataSpec;
use spec_core::items::{Op, Sort};
use spec_core::memory::Memory;
use spec_core::name::Name;
use spec_core::signature::{OpDecl, Signature, same_sorts};
use std::alloc::Global;

/// A bracket whose term is being read: the sort behind it, how many sorts there were before its arguments, and the word between two of
/// them.
#[derive(Clone, Copy)]
pub struct Bracket<'a> {
    pub sort: Option<&'a [u8]>,
    pub base: usize,
    pub between: Option<&'a [u8]>,
}

/// A term is to come, of this sort where one is written; a term was read; or the name of an operation over arguments is to come.
#[derive(Clone, Copy)]
pub enum Stand<'a> {
    Expects(Option<&'a [u8]>),
    HasTerm,
    Calls(Option<&'a [u8]>, usize),
}

/// What was read so far, from the right.
#[derive(Drop)]
pub struct Reading<'a> {
    pub stand: Stand<'a>,
    pub brackets: Vec<Bracket<'a>>,
    pub sorts: Vec<Sort>,
    pub ops: Vec<Op>,
}

// Whether the result sort of an operation has this name, where one is written.
fn is_written(sorts: &[Name], sort: Option<&[u8]>, declaration: &OpDecl) -> bool
    ensures { result ≡ is_written sorts.now (bytes_of sort.entry) (operation_of declaration.now) }
{
    match sort {
        None => true,
        Some(name) => match sorts.get(declaration.result.0 as usize) {
            None => name.is_empty(),
            Some(other) => other.as_str().as_bytes() == name,
        },
    }
}

// Whether an operation is called by this name, these argument sorts, and the sort that is written.
fn is_call(
    sorts: &[Name],
    name: &[u8],
    args: &[Sort],
    sort: Option<&[u8]>,
    declaration: &OpDecl,
) -> bool
    ensures { result ≡ is_call sorts.now name.now (map sort_number args.now) (bytes_of sort.entry) (operation_of declaration.now) }
{
    declaration.name.as_str().as_bytes() == name
        && same_sorts(&declaration.args, args)
        && is_written(sorts, sort, declaration)
}

// The first operation that is called by this name, these argument sorts, and the sort that is written.
fn find(
    signature: &Signature,
    name: &[u8],
    args: &[Sort],
    sort: Option<&[u8]>,
) -> Result<Option<Op>, Memory>
    ensures { IfOk result (λ found. option_map op_number found ≡
        first_at (is_call signature.now.sorts.items name.now (map sort_number args.now) (bytes_of sort.entry))
        (operations_of signature.now)) }
{
    for (i, declaration) in signature.ops.iter().enumerate() {
        if is_call(&signature.sorts, name, args, sort, declaration) {
            return match u32::try_from(i) {
                Ok(number) => Ok(Some(Op(number))),
                Err(_) => Err(Memory),
            };
        }
    }
    Ok(None)
}

// Takes the sorts behind the first so many, the last one first.
fn take_sorts(alloc: Global, sorts: &mut Vec<Sort>, base: usize) -> Result<Vec<Sort>, Memory>
    ensures taken { IfOk result (λ args. map sort_number args.items ≡
        take (length sorts.old.items - base) (reverse (map sort_number sorts.old.items))) }
    ensures left { OnOk result (reverse (map sort_number sorts.new.items) ≡
        drop (length sorts.old.items - base) (reverse (map sort_number sorts.old.items))) }
{
    let mut args = Vec::new(alloc);
    let count = sorts.len().saturating_sub(base);
    'taken: for _taken in 0..count {
        match sorts.pop() {
            None => return Err(Memory),
            Some(sort) => args.push(sort)?,
        }
    }
    Ok(args)
}

// The operation of this name over the terms that were read behind so many others.
fn apply(
    alloc: Global,
    reading: &mut Reading,
    algebra: &DataSpec,
    name: &[u8],
    base: usize,
    sort: Option<&[u8]>,
) -> Result<bool, Memory>
    ensures { IfOk result (λ ok. Took ok
        (applied_in algebra.now name.now base (bytes_of sort.entry) (state_of reading.old))
        (state_of reading.new)) }
{
    let args = take_sorts(alloc, &mut reading.sorts, base)?;
    match find(&algebra.signature, name, &args, sort)? {
        None => Ok(false),
        Some(op) => {
            let place = op.0 as usize;
            if place >= algebra.signature.ops.len() {
                return Err(Memory);
            }
            reading.sorts.push(algebra.signature.ops[place].result)?;
            reading.ops.push(op)?;
            reading.stand = Stand::HasTerm;
            Ok(true)
        }
    }
}

// Takes a piece where a term is to come.
fn take_before<'a>(
    alloc: Global,
    reading: &mut Reading<'a>,
    algebra: &DataSpec,
    piece: &Piece<'a>,
    sort: Option<&'a [u8]>,
) -> Result<bool, Memory>
    ensures { IfOk result (λ ok. Took ok
        (step_before (theory_of algebra.now) (piece_of piece.now) (bytes_of sort.entry) (state_of reading.old).brackets
        (state_of reading.old).sorts (state_of reading.old).value)
        (state_of reading.new)) }
{
    match piece {
        Piece::Word(word) => {
            let base = reading.sorts.len();
            apply(alloc, reading, algebra, word, base, sort)
        }
        Piece::Opening => Ok(false),
        Piece::Closing => {
            let base = reading.sorts.len();
            reading.brackets.push(Bracket {
                sort,
                base,
                between: None,
            })?;
            reading.stand = Stand::Expects(None);
            Ok(true)
        }
        Piece::Comma => Ok(false),
        Piece::OfSort(name) => {
            reading.stand = Stand::Expects(Some(*name));
            Ok(true)
        }
        Piece::Other => Ok(false),
    }
}

// Takes a bracket that opens: behind a word between the arguments this is their operation, else the name is still to come.
fn open<'a>(
    alloc: Global,
    reading: &mut Reading<'a>,
    algebra: &DataSpec,
    bracket: Bracket<'a>,
) -> Result<bool, Memory>
    ensures { IfOk result (λ ok. Took ok
        (opened_by (theory_of algebra.now) (bracket_of bracket.entry).between (bracket_of bracket.entry) (state_of reading.old).brackets
        (state_of reading.old).sorts (state_of reading.old).value)
        (state_of reading.new)) }
{
    match bracket.between {
        None => {
            reading.stand = Stand::Calls(bracket.sort, bracket.base);
            Ok(true)
        }
        Some(word) => {
            let name = underscored(alloc, word)?;
            apply(alloc, reading, algebra, &name, bracket.base, bracket.sort)
        }
    }
}

// The name of an operation with this word between its arguments.
fn underscored(alloc: Global, word: &[u8]) -> Result<Vec<u8>, Memory>
    ensures { IfOk result (λ name. name.items ≡ underscored word.now) }
{
    let mut name = Vec::new(alloc);
    name.push(b'_')?;
    name.extend_from_slice(word)?;
    name.push(b'_')?;
    Ok(name)
}

// Takes a piece behind which a term was read.
fn take_behind<'a>(
    alloc: Global,
    reading: &mut Reading<'a>,
    algebra: &DataSpec,
    piece: &Piece<'a>,
) -> Result<bool, Memory>
    ensures { IfOk result (λ ok. Took ok
        (step_behind (theory_of algebra.now) (piece_of piece.now) (state_of reading.old).brackets (state_of reading.old).sorts
        (state_of reading.old).value)
        (state_of reading.new)) }
{
    match piece {
        Piece::Word(word) => match reading.brackets.pop() {
            None => Ok(false),
            Some(bracket) => {
                reading.brackets.push(Bracket {
                    sort: bracket.sort,
                    base: bracket.base,
                    between: Some(*word),
                })?;
                reading.stand = Stand::Expects(None);
                Ok(true)
            }
        },
        Piece::Opening => match reading.brackets.pop() {
            None => Ok(false),
            Some(bracket) => open(alloc, reading, algebra, bracket),
        },
        Piece::Closing => Ok(false),
        Piece::Comma => {
            reading.stand = Stand::Expects(None);
            Ok(true)
        }
        Piece::OfSort(_) => Ok(false),
        Piece::Other => Ok(false),
    }
}

// Takes a piece where the name of an operation is to come.
fn take_name<'a>(
    alloc: Global,
    reading: &mut Reading<'a>,
    algebra: &DataSpec,
    piece: &Piece<'a>,
    sort: Option<&'a [u8]>,
    base: usize,
) -> Result<bool, Memory>
    ensures { IfOk result (λ ok. Took ok
        (step_call (theory_of algebra.now) (piece_of piece.now) (bytes_of sort.entry) base (state_of reading.old).brackets
        (state_of reading.old).sorts (state_of reading.old).value)
        (state_of reading.new)) }
{
    match piece {
        Piece::Word(word) => apply(alloc, reading, algebra, word, base, sort),
        Piece::Opening => Ok(false),
        Piece::Closing => Ok(false),
        Piece::Comma => Ok(false),
        Piece::OfSort(_) => Ok(false),
        Piece::Other => Ok(false),
    }
}

// Takes a piece.
fn take<'a>(
    alloc: Global,
    reading: &mut Reading<'a>,
    algebra: &DataSpec,
    piece: &Piece<'a>,
) -> Result<bool, Memory>
    ensures { IfOk result (λ ok. Took ok (step (theory_of algebra.now) (piece_of piece.now) (state_of reading.old))
        (state_of reading.new)) }
{
    match reading.stand {
        Stand::Expects(sort) => take_before(alloc, reading, algebra, piece, sort),
        Stand::HasTerm => take_behind(alloc, reading, algebra, piece),
        Stand::Calls(sort, base) => take_name(alloc, reading, algebra, piece, sort, base),
    }
}

/// Reads the pieces of a term from the right.
pub fn read_all<'a>(
    alloc: Global,
    algebra: &DataSpec,
    mut pieces: Vec<Piece<'a>>,
) -> Result<Option<Reading<'a>>, Memory>
    ensures { IfOk result (λ found.
        option_map state_of found ≡ run (theory_of algebra.now) (map piece_of pieces.entry.items) nothing_read) }
{
    let mut reading = Reading {
        stand: Stand::Expects(None),
        brackets: Vec::new(alloc),
        sorts: Vec::new(alloc),
        ops: Vec::new(alloc),
    };
    for _turn in 0..u64::MAX {
        match pieces.pop() {
            None => return Ok(Some(reading)),
            Some(piece) => {
                if !take(alloc, &mut reading, algebra, &piece)? {
                    return Ok(None);
                }
            }
        }
    }
    Err(Memory)
}
