//! The rule of cells, what a seat knows, and what its steps tell.
ghost use Rattle.cu_cells.specs.Rule.{KeepsPromise, opening_view, spent_view, both_views, StoresWord, SeesCell, LandsCell, LooksAt, ReadsWord};

use crate::layout::CellLayout;
use atomic_table::{Join, Play, Split, TableRule};
use std::marker::Model;

/// What a seat knows: whether it is in use, the layout, the cells that it has seen, those of its
/// failed puts that have landed, and the words that it has stored. Only proofs read it.
pub struct View {
    live: bool,
    layout: CellLayout,
    seen: Vec<usize>,
    landed: Vec<usize>,
    stored: Vec<usize>,
}

impl Model for View {
    ghost use Rattle.cu_cells.specs.Rule.{Viewed};

    ghost Value = { Viewed };

    ghost view = { λ v. record { live = v.live; laid = v.layout; seen = v.seen.items; landed = v.landed.items; stored = v.stored.items } };
}

/// The rule.
pub struct CellsRule;

impl<S> TableRule<S, View, CellLayout> for CellsRule {
    ghost holds = { KeepsPromise };

    ghost first = { opening_view };
}

/// A data word is stored.
pub(crate) struct Stores;

impl<S> Play<S, View> for Stores {
    ghost then = { StoresWord };
}

/// A flag is set.
pub(crate) struct Sets;

impl<S> Play<S, View> for Sets {
    ghost then = { SeesCell };
}

/// A flag is set of the cell of a failed put, which has landed.
/// The seat goes on as if it hadn't seen the cell.
pub(crate) struct Lands;

impl<S> Play<S, View> for Lands {
    ghost then = { LandsCell };
}

/// A flag is loaded.
pub(crate) struct Looks;

impl<S> Play<S, View> for Looks {
    ghost then = { LooksAt };
}

/// A data word is loaded.
pub(crate) struct Reads;

impl<S> Play<S, View> for Reads {
    ghost then = { ReadsWord };
}

/// Both know the same.
pub(crate) struct Same;

impl Split<View> for Same {
    ghost left = { λ v. v };

    ghost right = { λ v. v };
}

impl Join<View> for Same {
    ghost both = { both_views };

    ghost spent = { spent_view };
}
