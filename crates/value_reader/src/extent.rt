// The pieces of the term with which a text begins.

ghost use Rattle.std.specs.Prelude.{◌≡◌, IfOk, map};
ghost use Rattle.value_reader.specs.Extents.{extent, inside, next, start};
ghost use Rattle.value_reader.specs.Items.{items};
ghost use Rattle.value_reader.specs.Views.{next_of, piece_of, place_of};

use crate::piece::{Piece, next_item};
use spec_core::memory::Memory;
use std::alloc::Global;

/// At the beginning, behind the first word, behind its arguments, or in so many brackets and one.
#[derive(Clone, Copy)]
pub enum Place {
    Start,
    BehindWord,
    BehindArguments,
    Inside(u64),
}

/// Whether a term goes on with a piece.
#[derive(Clone, Copy)]
pub enum Next {
    Stops,
    Ends,
    GoesOn(Place),
}

// Whether a term goes on with a piece within so many brackets and one.
fn next_inside(depth: u64, piece: &Piece) -> Result<Next, Memory>
    ensures { IfOk result (λ n. next_of n ≡ next (inside depth) (piece_of piece.now)) }
{
    match piece {
        Piece::Word(_) => Ok(Next::GoesOn(Place::Inside(depth))),
        Piece::Opening => match depth.checked_add(1) {
            None => Err(Memory),
            Some(deeper) => Ok(Next::GoesOn(Place::Inside(deeper))),
        },
        Piece::Closing => {
            if depth == 0 {
                Ok(Next::GoesOn(Place::BehindArguments))
            } else {
                Ok(Next::GoesOn(Place::Inside(depth - 1)))
            }
        }
        Piece::Comma => Ok(Next::GoesOn(Place::Inside(depth))),
        Piece::OfSort(_) => Ok(Next::GoesOn(Place::Inside(depth))),
        Piece::Other => Ok(Next::Stops),
    }
}

// Whether a term goes on with a piece.
fn next_at(place: Place, piece: &Piece) -> Result<Next, Memory>
    ensures { IfOk result (λ n. next_of n ≡ next (place_of place) (piece_of piece.now)) }
{
    match place {
        Place::Start => match piece {
            Piece::Word(_) => Ok(Next::GoesOn(Place::BehindWord)),
            Piece::Opening => Ok(Next::GoesOn(Place::Inside(0))),
            Piece::Closing => Ok(Next::Stops),
            Piece::Comma => Ok(Next::Stops),
            Piece::OfSort(_) => Ok(Next::Stops),
            Piece::Other => Ok(Next::Stops),
        },
        Place::BehindWord => match piece {
            Piece::Word(_) => Ok(Next::Stops),
            Piece::Opening => Ok(Next::GoesOn(Place::Inside(0))),
            Piece::Closing => Ok(Next::Stops),
            Piece::Comma => Ok(Next::Stops),
            Piece::OfSort(_) => Ok(Next::Ends),
            Piece::Other => Ok(Next::Stops),
        },
        Place::BehindArguments => match piece {
            Piece::Word(_) => Ok(Next::Stops),
            Piece::Opening => Ok(Next::Stops),
            Piece::Closing => Ok(Next::Stops),
            Piece::Comma => Ok(Next::Stops),
            Piece::OfSort(_) => Ok(Next::Ends),
            Piece::Other => Ok(Next::Stops),
        },
        Place::Inside(depth) => next_inside(depth, piece),
    }
}

/// The pieces of the term with which a text begins.
pub fn term_pieces<'a>(alloc: Global, text: &'a [u8]) -> Result<Vec<Piece<'a>>, Memory>
    ensures { IfOk result (λ all. map piece_of all.items ≡ extent (items text.now) start) }
{
    let mut all = Vec::new(alloc);
    let mut rest = text;
    let mut place = Place::Start;
    for _turn in 0..u64::MAX {
        match next_item(rest) {
            None => return Ok(all),
            Some((piece, behind)) => match next_at(place, &piece)? {
                Next::Stops => return Ok(all),
                Next::Ends => {
                    all.push(piece)?;
                    return Ok(all);
                }
                Next::GoesOn(there) => {
                    all.push(piece)?;
                    place = there;
                    rest = behind;
                }
            },
        }
    }
    Err(Memory)
}
