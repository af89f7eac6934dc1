//! What the clients of a script offer: what they wish, with the values of its terms.
#![tactic(auto)]

mod clients;
mod fault;
mod offers;

pub use clients::offers_of_script;
pub use fault::WishFault;
pub use match_code::{Evaluator, Forms, Prepared};
pub use offers::{offer_of, offers_of};
