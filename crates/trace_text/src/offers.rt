// Sets of offers.

ghost use Rattle.std.specs.Prelude.{◌≡◌, [], length, OnOk, List};
ghost use Rattle.rule_model.specs.Events.{OfferName};
ghost use Rattle.trace_text.specs.Pending.{with_offer, without_offer, without_offers, without_taken};
ghost use Rattle.trace_text.specs.Standing.{HasOffers};

use indexmap::IndexSet;
use spec_core::memory::Memory;
use std::alloc::Global;

/// Offers, each once.
#[derive(Drop)]
pub struct Offers {
    all: IndexSet<(u32, u64)>,
}

impl Offers {
    /// No offers.
    pub fn new(alloc: Global) -> Offers
        ensures { HasOffers result [] }
    {
        Offers {
            all: IndexSet::new(alloc),
        }
    }

    /// How many there are.
    pub fn count(&self) -> usize
        ensures { (offers : List OfferName) → HasOffers self.now offers → result ≡ length offers }
    {
        self.all.len()
    }

    /// Adds an offer.
    pub fn put(&mut self, client: u32, number: u64) -> Result<(), Memory>
        ensures { OnOk result ((offers : List OfferName) → HasOffers self.old offers → HasOffers self.new (with_offer (client, number) offers)) }
    {
        self.all.insert((client, number))?;
        Ok(())
    }

    /// Takes an offer away, if it is there.
    pub fn remove(&mut self, client: u32, number: u64)
        ensures { (offers : List OfferName) → HasOffers self.old offers → HasOffers self.new (without_offer (client, number) offers) }
    {
        self.all.swap_remove(&(client, number));
    }

    /// Takes away the offer that an action takes, if it takes one.
    pub fn remove_taken(&mut self, by: Option<(u32, u64)>)
        ensures { (offers : List OfferName) → HasOffers self.old offers → HasOffers self.new (without_taken by offers) }
    {
        match by {
            None => {}
            Some((client, number)) => self.remove(client, number),
        }
    }

    /// Takes away each of these offers.
    pub fn remove_each(&mut self, names: &[(u32, u64)])
        ensures { (offers : List OfferName) → HasOffers self.old offers → HasOffers self.new (without_offers names.now offers) }
    {
        for name in names {
            self.remove(name.0, name.1);
        }
    }
}
