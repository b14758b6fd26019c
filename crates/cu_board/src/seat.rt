//! What a worker knows of the board.
use atomic_table::Badge;
use cu_lock::SeatView;
use std::marker::Model;

/// A seat at a board: its root, or a worker's. Contracts see which board it is of, and what the seat knows.
#[derive(Drop)]
pub struct BoardSeat {
    pub(crate) badge: Badge<SeatView>,
    // the number of a worker, as the view has it
    pub(crate) number: u32,
    // the word of the lock when this seat gave the turn back last: it is another one after each report that wakes
    pub(crate) word: u64,
}

impl Model for BoardSeat {
    ghost use Rattle.std.specs.Prelude.{◌≡◌, [], ◌∷◌, true, false};
    ghost use Rattle.cu_lock.specs.Seats.{first_view};
    ghost use Rattle.cu_board.specs.Views.{SeatAt};

    ghost Value = { SeatAt };

    ghost view = { λ s. record { board = s.badge.table_id; view = first_view s.badge.views } };

    ghost invariant = { λ s. (s.badge.views ≡ first_view s.badge.views ∷ [])
        × ((first_view s.badge.views).live ≡ true) × ((first_view s.badge.views).turn ≡ false)
        × ((first_view s.badge.views).root ≡ false → (first_view s.badge.views).number ≡ s.number) };
}
