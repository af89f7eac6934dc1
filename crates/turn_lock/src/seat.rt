// A seat of the lock.

use crate::rule::View;
use crate::standing::Standing;
use atomic_table::Seat;
use std::marker::Model;

pub(crate) type Place<T> = Seat<Option<T>, View<<T as Standing>::Entry, <T as Standing>::Fixed>>;

/// The right to take turns. Contracts see its lock, its number, the list that it has seen, the entries that it made, and
/// whether it holds the turn.
#[derive(Drop)]
pub struct TurnSeat<T: Standing> {
    pub(crate) place: Seat<Option<T>, View<T::Entry, T::Fixed>>,
}

impl<T: Standing> Model for TurnSeat<T> {
    ghost use Rattle.turn_lock.specs.Seats.{SeatModel};

    ghost Value = { SeatModel T.Entry };

    ghost use Rattle.turn_lock.specs.Steps.{is_in_turn, IsBetweenCalls};

    ghost view = { λ s. record {
      lock = s.place.table_id;
      number = s.place.me.0.account.number;
      seen = s.place.me.0.account.seen;
      own = s.place.me.0.account.own;
      holds_turn = is_in_turn s.place.me.0.phase;
    } };

    ghost invariant = { λ s. IsBetweenCalls s.place };
}
