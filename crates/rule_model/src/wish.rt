// What a client of a session wishes to offer.
use crate::offer::Offer;

/// An offer that a client makes, or only asks for, which contracts see as a `Wish`.
#[derive(Drop)]
pub struct ClientWish {
    pub offer: Offer,
    /// Whether the client only asks.
    pub ask: bool,
}
