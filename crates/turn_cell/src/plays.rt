//! The rule of the turn, and what each kind of atomic step tells the seat that makes it.
ghost use Rattle.std.specs.Prelude.{◌≡◌};
ghost use Rattle.turn_cell.specs.Turn.{Holds, unborn, Starts, Tries, Adds, Drains, Gives, Looks, keeping, sibling, joined, spent};

use crate::storied::{Past, Storied, Told};
use crate::view::{Origin, View};
use atomic_table::{Join, Play, Split, TableRule};
use std::marker::PhantomData;

/// The rule that holds between any two steps.
pub struct TurnRule<T> {
    of: PhantomData<T>,
}

impl<T: Storied> TableRule<Option<T>, View<T::Note>, Origin<T>> for TurnRule<T> {
    ghost holds = { λ key. Holds T.stands T.fixed T.first key.value.value key.start key.seats };

    ghost first = { λ key. unborn (T.first key.value.value) key.seats };
}

/// The load of the turn word by the first seat, before the cell is shared: it chooses the history.
pub struct Start<P> {
    of: PhantomData<P>,
}

impl<T, N, P: Past<N>> Play<Option<T>, View<N>> for Start<P> {
    ghost then = { Starts P.past };
}

/// The compare-exchange of the turn word from 0 to 1.
pub struct Try<T, J> {
    of: PhantomData<(T, J)>,
}

impl<T: Storied, J: Told<T>> Play<Option<T>, View<T::Note>> for Try<T, J> {
    ghost then = { Tries T.stands T.fixed T.first J.told };
}

/// The fetch-add of the count word, by which the holder adds a note.
pub struct Add<J> {
    of: PhantomData<J>,
}

impl<T, N, J: Told<N>> Play<Option<T>, View<N>> for Add<J> {
    ghost then = { Adds J.told };
}

/// The fetch-add of the drained word, by the holder that carries the mark.
pub struct Drain;

impl<T, N> Play<Option<T>, View<N>> for Drain {
    ghost then = { Drains };
}

/// The swap of the turn word to 0.
pub struct Give;

impl<T, N> Play<Option<T>, View<N>> for Give {
    ghost then = { Gives };
}

/// The load of the count word.
pub struct Look;

impl<T, N> Play<Option<T>, View<N>> for Look {
    ghost then = { Looks };
}

/// The splitting of a seat off another.
pub struct Cut;

impl<N> Split<View<N>> for Cut {
    ghost left = { keeping };

    ghost right = { sibling };
}

/// The joining of one seat into another.
pub struct Glue;

impl<N> Join<View<N>> for Glue {
    ghost both = { joined };

    ghost spent = { spent };
}
