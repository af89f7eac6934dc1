// Numbers that are found again by a mark, most of the time.

use spec_core::items::Op;
use spec_core::memory::Memory;
use std::alloc::Global;
use std::mem;

/// The fewest places of a table that isn't empty.
const FEWEST: usize = 64;

/// The most places of a table.
const MOST: usize = 1_048_576;

// A number, and the mark under which it was noted.
#[derive(Clone, Copy)]
struct Hint {
    mark: u32,
    number: u32,
}

/// Numbers by marks. What is found is a number that was noted under the mark, and what was noted may have been lost: whoever asks looks
/// whether it is the one that is wanted.
#[derive(Drop)]
pub struct Hints {
    places: Vec<Option<Hint>>,
    filled: usize,
    /// Whether nothing is noted.
    closed: bool,
}

// Numbers that are alike become numbers that aren't.
fn mix(mark: u32, number: u32) -> u32 {
    let wide = (mark as u64 ^ number as u64) * 0x9E37_79B1u64;
    ((wide >> 15) & 0xFFFF_FFFF) as u32
}

/// The mark of an operation over nodes.
pub fn mark_of(op: Op, args: &[u32]) -> u32 {
    let mut mark = mix(17, op.0);
    for arg in args {
        mark = mix(mark, *arg);
    }
    mark
}

impl Hints {
    /// No numbers. It takes no memory.
    pub fn new(alloc: Global) -> Hints {
        Hints {
            places: Vec::new(alloc),
            filled: 0,
            closed: false,
        }
    }

    /// No numbers, and none is noted until they are opened. It takes no memory.
    pub fn closed(alloc: Global) -> Hints {
        Hints {
            places: Vec::new(alloc),
            filled: 0,
            closed: true,
        }
    }

    /// Notes numbers from now on. It takes no memory.
    pub fn open(&mut self) {
        self.closed = false;
    }

    /// Whether no number is noted. It takes no memory.
    pub fn is_closed(&self) -> bool {
        self.closed
    }

    /// No numbers, and none is noted where none was. It takes no memory.
    pub fn emptied(&self, alloc: Global) -> Hints {
        Hints {
            places: Vec::new(alloc),
            filled: 0,
            closed: self.closed,
        }
    }

    /// The number at the mark's first place. It takes no memory.
    pub fn first(&self, mark: u32) -> Option<u32> {
        self.number_at(self.place_of(mark), mark)
    }

    /// The number at the mark's second place. It takes no memory.
    pub fn second(&self, mark: u32) -> Option<u32> {
        self.number_at(self.place_of(mark ^ 1), mark)
    }

    /// Notes a number under a mark. The table has twice as many places as numbers, while there are no more than 2^20 places.
    pub fn note(&mut self, alloc: Global, mark: u32, number: u32) -> Result<(), Memory> {
        if self.filled >= self.places.len() / 2 && self.places.len() < MOST {
            self.widen(alloc)?;
        }
        self.put(Hint { mark, number });
        Ok(())
    }

    // A place; the number of places is a power of two.
    fn place_of(&self, mark: u32) -> usize {
        mark as usize & self.places.len().saturating_sub(1)
    }

    fn number_at(&self, place: usize, mark: u32) -> Option<u32> {
        if place < self.places.len() {
            match self.places[place] {
                None => None,
                Some(hint) => {
                    if hint.mark == mark {
                        Some(hint.number)
                    } else {
                        None
                    }
                }
            }
        } else {
            None
        }
    }

    // Twice as many places.
    fn widen(&mut self, alloc: Global) -> Result<(), Memory> {
        let count = self.places.len().saturating_mul(2).max(FEWEST);
        let wider = Vec::from_elem(alloc, None, count)?;
        let before = mem::replace(&mut self.places, wider);
        self.filled = 0;
        for place in &before {
            match place {
                None => {}
                Some(hint) => self.put(*hint),
            }
        }
        Ok(())
    }

    // Puts a number into the first place of its mark, if that is empty, and else into the second one.
    fn put(&mut self, hint: Hint) {
        let first = self.place_of(hint.mark);
        if first < self.places.len() && self.places[first].is_none() {
            self.places[first] = Some(hint);
            self.filled = self.filled.saturating_add(1);
        } else {
            let second = self.place_of(hint.mark ^ 1);
            if second < self.places.len() {
                self.places[second] = Some(hint);
            }
        }
    }
}
