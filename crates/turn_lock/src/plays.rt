// What each step on the lock's words tells the seat that makes it.

use crate::rule::View;
use crate::standing::Standing;
use atomic_table::{Join, Play, Split};
use std::marker::{Brand, PhantomData};

/// Names the list that a seat publishes. Each call picks it.
pub(crate) trait Publishes<E> {
    ghost use Rattle.std.specs.Prelude.{List};

    ghost given: { List E };
}

impl<E> Publishes<E> for Brand {
    ghost use Rattle.std.specs.Prelude.{[]};

    ghost given = { [] };
}

/// Names the fixed part and the number of seats that the lock was made with. Each call picks them.
pub(crate) trait MadeWith<F> {
    ghost use Rattle.std.specs.Prelude.{ℕ, Option};

    ghost fixed_part: { Option F };

    ghost seats: { ℕ };
}

impl<F> MadeWith<F> for Brand {
    ghost use Rattle.std.specs.Prelude.{None};

    ghost fixed_part = { None };

    ghost seats = { 0 };
}

/// Draws a ticket.
pub(crate) struct Draw;

impl<T, E, F> Play<Option<T>, View<E, F>> for Draw {
    ghost use Rattle.turn_lock.specs.Steps.{drew};

    ghost then = { drew };
}

/// Looks which ticket is served.
pub(crate) struct Look<T, J> {
    of: PhantomData<(T, J)>,
}

impl<T: Standing, J: MadeWith<T::Fixed>> Play<Option<T>, View<T::Entry, T::Fixed>> for Look<T, J> {
    ghost use Rattle.turn_lock.specs.Steps.{looked};

    ghost then = { looked T.list T.fixed T.maker J.fixed_part J.seats };
}

/// Publishes the length of the list.
pub(crate) struct Publish<T, J> {
    of: PhantomData<(T, J)>,
}

impl<T: Standing, J: Publishes<T::Entry>> Play<Option<T>, View<T::Entry, T::Fixed>>
    for Publish<T, J> {
    ghost use Rattle.turn_lock.specs.Steps.{published};

    ghost then = { published T.maker J.given };
}

/// Passes the turn to the next ticket.
pub(crate) struct Pass;

impl<T, E, F> Play<Option<T>, View<E, F>> for Pass {
    ghost use Rattle.turn_lock.specs.Steps.{passed};

    ghost then = { passed };
}

/// Rings the bell of the next ticket.
pub(crate) struct Ring;

impl<T, E, F> Play<Option<T>, View<E, F>> for Ring {
    ghost use Rattle.turn_lock.specs.Steps.{rang};

    ghost then = { rang };
}

/// Splits a seat off the first one.
pub(crate) struct Deal<T> {
    of: PhantomData<T>,
}

impl<T: Standing> Split<View<T::Entry, T::Fixed>> for Deal<T> {
    ghost use Rattle.turn_lock.specs.Steps.{after_split, new_view};

    ghost left = { after_split };

    ghost right = { new_view T.maker };
}

/// Joins a seat into another.
pub(crate) struct Gather;

impl<E, F> Join<View<E, F>> for Gather {
    ghost use Rattle.turn_lock.specs.Steps.{after_join, spent_view};

    ghost both = { after_join };

    ghost spent = { spent_view };
}
