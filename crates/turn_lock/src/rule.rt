// What a seat knows, and the rule that ties all seats together.

use crate::standing::Standing;
use atomic_table::TableRule;
use std::collections::LinkedList;
use std::marker::PhantomData;
use std::snapshot::Snapshot;

/// Where a seat stands in the queue. From the draw to the end of its turn it has a ticket.
pub(crate) enum Phase {
    /// It has no ticket.
    Idle,
    /// It has a ticket and waits.
    Drawn(u64),
    /// Its ticket is served, and it has the value.
    Called(u64),
    /// It has published the length of the list that it gives, and has the value still.
    Published(u64),
}

/// A seat's number, the list that it has seen, and the entries that it made. No value of it is made.
pub(crate) struct Account<E> {
    pub(crate) number: u64,
    pub(crate) seen: LinkedList<E>,
    pub(crate) own: LinkedList<E>,
}

/// What the lock was made with: the value's list and its fixed part, and the number of seats. No value of it is made.
pub(crate) struct Origin<E, F> {
    pub(crate) opening: LinkedList<E>,
    pub(crate) fixed: Option<F>,
    pub(crate) seats: u64,
}

/// What a seat knows. No value of it is made.
pub(crate) struct View<E, F> {
    /// Its own account.
    pub(crate) account: Account<E>,
    /// The accounts of the seats that were joined into it.
    pub(crate) joined: LinkedList<Account<E>>,
    pub(crate) phase: Phase,
    /// Whether it was joined into another seat.
    pub(crate) spent: bool,
    /// Whether it is the seat that hands out numbers.
    pub(crate) is_first: bool,
    /// The next number that the first seat hands out.
    pub(crate) next: u64,
    pub(crate) origin: Origin<E, F>,
}

/// What the rule is told when the lock is made.
#[derive(Drop)]
pub(crate) struct Opening<T> {
    pub(crate) value: Snapshot<T>,
    pub(crate) seats: u64,
}

/// The rule of the lock.
pub(crate) struct TurnRule<T> {
    of: PhantomData<T>,
}

impl<T: Standing> TableRule<Option<T>, View<T::Entry, T::Fixed>, Opening<T>> for TurnRule<T> {
    ghost use Rattle.turn_lock.specs.Rule.{KeepsRule, first_view};

    ghost holds = { λ key. KeepsRule T.list T.fixed T.maker key.value.value key.seats };

    ghost first = { λ key. first_view T.list T.fixed T.maker key.value.value key.seats };
}
