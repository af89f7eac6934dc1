// What the clients of a script wish.

use spec_core::items::{Gate, Sort};
use spec_core::term::Term;

/// A field of an offer: the value of a ground term, or any value of a sort.
#[derive(Drop)]
pub enum WishField {
    /// `!expression`
    Give(Term),
    /// `?Sort`
    Take(Sort),
}

/// What a client wishes in one line: an offer, or a question whether an offer would be taken.
#[derive(Drop)]
pub struct Wish {
    /// Whether the client only asks.
    pub ask: bool,
    /// The gate, one of the specification's heading.
    pub gate: Gate,
    /// The fields in their order.
    pub fields: Vec<WishField>,
}

/// The wishes of each client in the order of its lines. Client 1 comes first; the last client has a wish.
#[derive(Drop)]
pub struct Script {
    /// The clients, from client 1 on; at most 64.
    pub clients: Vec<Vec<Wish>>,
}
