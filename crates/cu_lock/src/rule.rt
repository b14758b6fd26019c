//! What the lock asks of the state that it keeps, and the kinds of its steps.
ghost use Rattle.std.specs.Prelude.{List, Option};
ghost use Rattle.cu_store.specs.declared.faults.TaskFault.{TaskFault};
ghost use Rattle.cu_history.specs.declared.entry.Entry.{Entry};
ghost use Rattle.cu_lock.specs.Rule.{IsTurnState, TakesTurn, FreesTurn};
ghost use Rattle.cu_lock.specs.Views.{first_root, split_root, split_off, root_joined, spent};

use crate::view::SeatView;
use atomic_table::{Join, Play, Split, TableRule};
use std::marker::{Brand, PhantomData};

/// A state with a history. K is what the lock is told once, when it is made.
pub trait HasHistory<K> {
    /// What is true of the state whenever nobody has the turn.
    ghost invariant: { K → Self → Type 0 };

    /// What happened to it.
    ghost history: { Self → List Entry };

    /// The fault that a Halt of the history had.
    ghost fault: { Self → Option TaskFault };
}

/// A fact of the state. A step can't read what the lock was told, so that its caller names a fact that follows from it.
pub trait Fact<S> {
    ghost holds: { S → Type 0 };
}

/// The caller's proof names the fact in place of this one.
impl<S> Fact<S> for Brand {
    ghost holds = { λ _. Unit {0} };
}

/// The rule of the lock.
pub struct TurnRule<S> {
    marker: PhantomData<S>,
}

impl<S: HasHistory<K>, K> TableRule<Option<S>, SeatView, K> for TurnRule<S> {
    ghost holds = { λ key. IsTurnState S.history S.fault (S.invariant key) };

    ghost first = { λ _. first_root };
}

/// The turn is taken, where the word is what was expected.
pub struct TakeTurn<K, F> {
    marker: PhantomData<(K, F)>,
}

impl<S: HasHistory<K>, K, F: Fact<S>> Play<Option<S>, SeatView> for TakeTurn<K, F> {
    ghost then = { λ st m r n. TakesTurn S.history S.fault F.holds m st.first r n };
}

/// The turn is given back.
pub struct FreeTurn<K> {
    marker: PhantomData<K>,
}

impl<S: HasHistory<K>, K> Play<Option<S>, SeatView> for FreeTurn<K> {
    ghost then = { λ st m r n. FreesTurn S.history S.fault (λ _. Unit {0}) m n };
}

/// The root gives a seat, and takes one in.
pub struct RootStep;

impl Split<SeatView> for RootStep {
    ghost left = { split_root };

    ghost right = { split_off };
}

impl Join<SeatView> for RootStep {
    ghost both = { root_joined };

    ghost spent = { spent };
}
