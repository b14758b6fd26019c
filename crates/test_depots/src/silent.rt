//! Depots that tell nothing.
ghost use Rattle.std.specs.Prelude.{◌≡◌, None, refl};

use cu_dir::DirDepot;
use cu_store::Depot;
use std::fs::Files;

/// A depot that tells nothing of what it holds. Where nothing is told, nothing is said of late puts either: so a put that a pass made
/// may be late in the depot once the pass is given back.
pub trait Silent: Depot {
    ghost silent: { (d : Self) → (Self.shown d).held ≡ None };
}

impl<H: Files + Drop> Silent for DirDepot<H> {
    ghost silent = { λ d. refl };
}
