// A source in memory.

ghost use Rattle.std.specs.Prelude.{◌≡◌, ◌<◌, ◌≤◌, ◌↔◌, [], ◌++◌, min, length, take, drop, Contains, vec_len, Ok, IfOk, OnOk, OnErr, IsErr};
ghost use Rattle.std.specs.List.{concat};
ghost use Rattle.lotos_outside.specs.Counts.{next_count};
ghost use Rattle.lotos_outside.specs.Source.{pieces_of, next_piece, BeginsFilled};

use crate::source::{Source, SourceFault};
use std::marker::Model;

/// A source in memory, which fails at the calls that it was told to fail at, and at no other.
#[derive(Drop)]
pub struct MemorySource {
    pieces: Vec<Vec<u8>>,
    fails: Vec<u64>,
    calls: u64,
    faults: u64,
}

impl Model for MemorySource {
    ghost use Rattle.lotos_outside.specs.Source.{SourceState, pieces_of};

    ghost Value = { SourceState };

    ghost view = { λ s. record { pieces = pieces_of s.pieces.items; fails = s.fails.items; calls = s.calls; faults = s.faults } };
}

impl MemorySource {
    /// A source of these pieces, one after the other, which fails at the calls with these numbers, counted from 1.
    ///
    /// A call gives at most the rest of one piece.
    pub fn new(pieces: Vec<Vec<u8>>, fails: Vec<u64>) -> MemorySource
        ensures { result ≡ record { pieces = pieces_of pieces.items; fails = fails.items; calls = 0; faults = 0 } }
    {
        MemorySource {
            pieces,
            fails,
            calls: 0,
            faults: 0,
        }
    }
}

// Removes the empty pieces at the front.
fn skip_empty(pieces: &mut Vec<Vec<u8>>)
    ensures same { concat (pieces_of pieces.new.items) ≡ concat (pieces_of pieces.old.items) }
    ensures next { next_piece (pieces_of pieces.new.items) ≡ next_piece (pieces_of pieces.old.items) }
    ensures filled { BeginsFilled (pieces_of pieces.new.items) }
{
    while let Some(first) = pieces.first() {
        if !first.is_empty() {
            return;
        }
        pieces.remove(0);
    }
}

// Moves as many bytes of the first piece as there is room for to the beginning of `piece`.
fn move_first(pieces: &mut [Vec<u8>], piece: &mut [u8]) -> usize
    requires { BeginsFilled (pieces_of pieces.old) }
    ensures count { result ≡ min (length (next_piece (pieces_of pieces.old))) (length piece.old) }
    ensures moved { concat (pieces_of pieces.old) ≡ take result piece.new ++ concat (pieces_of pieces.new) }
    ensures end { result ≡ 0 → 0 < length piece.old → pieces.old ≡ [] }
{
    match pieces {
        [] => 0,
        [left, ..] => move_bytes(left, piece),
    }
}

// Moves as many bytes as there is room for from the beginning of `left` to the beginning of `piece`.
fn move_bytes(left: &mut Vec<u8>, piece: &mut [u8]) -> usize
    ensures count { result ≡ min (vec_len left.old) (length piece.old) }
    ensures moved { take result piece.new ≡ take result left.old.items }
    ensures left { left.new.items ≡ drop result left.old.items }
{
    let count = left.len().min(piece.len());
    piece[..count].copy_from_slice(&left[..count]);
    left.rotate_left(count);
    left.truncate(left.len() - count);
    count
}

impl Source for MemorySource {
    ghost use Rattle.std.specs.Prelude.{Some};
    ghost use Rattle.std.specs.List.{concat};

    ghost rest = { λ source. Some (concat source.pieces) };

    ghost faults = { λ source. source.faults };

    fn read(&mut self, piece: &mut [u8]) -> Result<usize, SourceFault>
        ensures ok { IfOk result (λ count. concat self.old.pieces ≡ take count piece.new ++ concat self.new.pieces) }
        ensures one_piece { IfOk result (λ count. count ≡ min (length (next_piece self.old.pieces)) (length piece.old)) }
        ensures end { result ≡ Ok 0 → 0 < length piece.old → concat self.old.pieces ≡ [] }
        ensures ok_state { OnOk result (self.new ≡ record self.old { calls = next_count self.old.calls; pieces = self.new.pieces }) }
        ensures err_state { OnErr result (self.new ≡
            record self.old { calls = next_count self.old.calls; faults = next_count self.old.faults }) }
        ensures fails { IsErr result ↔ Contains self.old.fails (next_count self.old.calls) }
        ensures never_fewer { self.old.faults ≤ self.new.faults }
    {
        self.calls = self.calls.saturating_add(1);
        if self.fails.contains(&self.calls) {
            self.faults = self.faults.saturating_add(1);
            return Err(SourceFault::Failed);
        }
        skip_empty(&mut self.pieces);
        Ok(move_first(&mut self.pieces, piece))
    }
}
