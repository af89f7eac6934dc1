// What a line of the simulator asks for.

use script_text::wish::Wish;

/// What a line asks for.
#[derive(Drop)]
pub enum SimLine {
    /// `menu`: the steps that are possible.
    Menu,
    /// `do NUMBER`: the step with this number in the last menu, counted from 1. 2^32 - 1 stands for each greater number too.
    Do(u32),
    /// `offer OFFER`: the first step that meets the offer.
    Offer(Wish),
    /// `trace`: what was done.
    Trace,
    /// `quit`: nothing more.
    Quit,
}
