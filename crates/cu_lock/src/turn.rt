//! The lock: a word that is even where nobody has the turn, and a slot with the state.
ghost use Rattle.std.specs.Prelude.{◌≡◌, ℕ, ◌%◌, ◌<◌, [], ◌∷◌, true, false, None, Contains, IfOk, IfErr};
ghost use Rattle.cu_lock.specs.Rule.{IsPrefix, AllBelow, IsWorker, IsRoot, Learns, TurnTaken, Grows, Each, IsKnownFront};
ghost use Rattle.cu_lock.specs.Views.{first_root, informed, split_root, split_off, root_joined, joined_numbers};
ghost use Rattle.cu_lock.specs.Seats.{IsSeat, seat_view};

use crate::rule::{Fact, FreeTurn, HasHistory, RootStep, TakeTurn, TurnRule};
use crate::view::SeatView;
use atomic_table::{Badge, Refused, Seat, Table};
use std::alloc::Global;
use std::sync::Wait;
use std::thread::yield_now;

/// A state that one seat at a time has.
#[derive(Drop)]
pub struct Turn<S: HasHistory<K>, K> {
    table: Table<Option<S>, SeatView, K, TurnRule<S>, Global>,
    ghost sized: { (table.shared.table_id.words ≡ 1) × (table.shared.table_id.slots ≡ 1) },
}

/// The turn, while the state is out. It has no `Drop`, so that it ends in `give_back`.
pub struct HeldTurn<S> {
    seat: Seat<Option<S>, SeatView>,
    // the word that was found, before the turn was taken
    word: u64,
    ghost even: { word % 2 ≡ 0 },
}

impl<S: HasHistory<K> + Drop, K> Turn<S, K> {
    /// A lock over a state whose history is empty, and its root. The Err is want of memory.
    pub fn new(alloc: Global, state: S, key: &K) -> Result<(Turn<S, K>, Badge<SeatView>), S>
        requires invariant { S.invariant key.now state }
        requires empty { S.history state ≡ [] }
        ensures ok { IfOk result (λ t. (t.0.table.shared.key ≡ key.now)
            × IsSeat t.0.table.shared.table_id first_root t.1) }
        ensures err { IfErr result (λ s. s ≡ state) }
    {
        let mut slots = Vec::new(alloc);
        if slots.reserve(1).is_err() {
            return Err(state);
        }
        slots.push_reserved(Some(state));
        match Table::new(alloc, &[0], slots, key) {
            Ok((table, seat)) => Ok((Turn { table }, seat.into_badge())),
            Err(Refused { mut slots }) => match slots.pop() {
                Some(Some(state)) => Err(state),
                _ => unreachable!(),
            },
        }
    }

    // Tries until the turn is taken, and gives the word that it found then. Each failed try lets other threads run,
    // since the one that has the turn may be waiting for a processor.
    fn await_turn<F: Fact<S>, R: Wait>(&self, rt: &R, seat: &mut Seat<Option<S>, SeatView>) -> u64
        requires seat { seat.old.table_id ≡ self.now.table.shared.table_id }
        requires empty { seat.old.me.1 ≡ [] }
        requires worker { IsWorker seat.old.me.0 }
        requires fact { (x : S) → S.invariant self.now.table.shared.key x → F.holds x }
        ensures seat { seat.new.table_id ≡ seat.old.table_id }
        ensures even { result % 2 ≡ 0 }
        ensures taken { TurnTaken S.history S.fault F.holds seat.old.me.0 seat.new.me }
    {
        let shared = &self.table.shared;
        let mut even = 0;
        for _ in rt.forever() {
            let found = shared.compare_exchange::<TakeTurn<K, F>>(seat, 0, even, even + 1);
            if found == even {
                return even;
            }
            if found % 2 != 0 {
                yield_now();
            }
            even = found - found % 2;
        }
        unreachable!()
    }

    /// Waits for the turn, and takes the state. `F` is a fact that follows from the invariant by what this lock was told.
    pub fn take<F: Fact<S>, R: Wait>(&self, rt: &R, badge: Badge<SeatView>) -> (S, HeldTurn<S>)
        requires seat { IsSeat self.now.table.shared.table_id (seat_view badge) badge }
        requires worker { IsWorker (seat_view badge) }
        requires fact { (x : S) → S.invariant self.now.table.shared.key x → F.holds x }
        ensures seat { result.1.seat.table_id ≡ self.now.table.shared.table_id }
        ensures taken { result.1.seat.me
            ≡ (informed (seat_view badge) true (S.history result.0) (S.fault result.0), (0, None) ∷ []) }
        ensures learns { Learns S.history S.fault F.holds (seat_view badge) result.0 }
    {
        let mut seat = badge.into_seat::<Option<S>>();
        let word = self.await_turn::<F, R>(rt, &mut seat);
        match self.table.shared.exchange(&mut seat, 0, None) {
            Some(state) => (state, HeldTurn { seat, word }),
            None => unreachable!(),
        }
    }

    /// Gives the state back, and the word that stands then. Where `wakes`, the word is another one than before, and those
    /// who sleep on it wake.
    pub fn give_back(&self, state: S, held: HeldTurn<S>, wakes: bool) -> (Badge<SeatView>, u64)
        requires seat { held.seat.table_id ≡ self.now.table.shared.table_id }
        requires out { held.seat.me.1 ≡ (0, None) ∷ [] }
        requires turn { (held.seat.me.0.live ≡ true) × (held.seat.me.0.turn ≡ true) }
        requires grown { Grows S.history S.fault (S.invariant self.now.table.shared.key) held.seat.me.0 state }
        ensures { IsSeat self.now.table.shared.table_id
            (informed held.seat.me.0 false (S.history state) (S.fault state)) result.0 }
    {
        let shared = &self.table.shared;
        let HeldTurn { mut seat, word } = held;
        drop(shared.exchange(&mut seat, 0, Some(state)));
        let word = if wakes { word.wrapping_add(2) } else { word };
        shared.store::<FreeTurn<K>>(&mut seat, 0, word);
        if wakes {
            shared.wake_all(0);
        }
        (seat.into_badge(), word)
    }

    /// Sleeps until somebody wakes those who sleep, or for no reason; not at all where the word isn't this one any more.
    /// Nothing is claimed of it, but that it changes nothing.
    pub fn wait<R: Wait>(&self, rt: &R, word: u64) {
        self.table.shared.park(rt, 0, (word % (1 << 32)) as u32);
    }

    /// A new seat, which knows as much as the root. Its number is the count of splits before.
    pub fn split(&self, root: Badge<SeatView>) -> (Badge<SeatView>, Badge<SeatView>)
        requires seat { IsSeat self.now.table.shared.table_id (seat_view root) root }
        requires root { IsRoot (seat_view root) }
        ensures root { IsSeat self.now.table.shared.table_id (split_root (seat_view root)) result.0 }
        ensures seat { IsSeat self.now.table.shared.table_id (split_off (seat_view root)) result.1 }
    {
        let mut seat = root.into_seat::<Option<S>>();
        let other = self.table.shared.split_seat::<RootStep>(&mut seat);
        (seat.into_badge(), other.into_badge())
    }

    /// The root takes in a seat, and knows the longer of both fronts then.
    pub fn join(&self, root: Badge<SeatView>, other: Badge<SeatView>) -> Badge<SeatView>
        requires seats { IsSeat self.now.table.shared.table_id (seat_view root) root
            × IsSeat self.now.table.shared.table_id (seat_view other) other }
        requires kinds { IsRoot (seat_view root) × IsWorker (seat_view other) }
        ensures { IsSeat self.now.table.shared.table_id (root_joined (seat_view root) (seat_view other)) result }
    {
        let mut seat = root.into_seat::<Option<S>>();
        self.table
            .shared
            .join_seat::<RootStep>(&mut seat, other.into_seat());
        seat.into_badge()
    }

    /// The state, once each other seat was joined. What the root and each of these knew begins its history. Each entry is of a
    /// number below the count of splits, and each joined seat knew all entries of its own number.
    pub fn close(self, root: Badge<SeatView>) -> S
        requires seat { IsSeat self.table.shared.table_id (seat_view root) root }
        requires root { IsRoot (seat_view root) }
        requires all { (n : ℕ) → n < (seat_view root).number → Contains (joined_numbers (seat_view root)) n }
        ensures invariant { S.invariant self.table.shared.key result }
        ensures front { IsPrefix (seat_view root).front (S.history result) }
        ensures joined { Each (IsKnownFront (S.history result) (S.fault result)) (seat_view root).joined }
        ensures below { AllBelow (seat_view root).number (S.history result) }
    {
        let Turn { table } = self;
        let mut closed = table.close_with(root.into_seat::<Option<S>>());
        let slot = closed.take(0);
        closed.free();
        match slot {
            Some(state) => state,
            None => unreachable!(),
        }
    }
}
