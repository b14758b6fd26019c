//! What tests stand on: a depot that writes down each call, also those of the yards that it
//! shares; a depot of which the calls of a span fail, whichever of its passes makes them, and of
//! which a put that failed may land later; and a gate that holds tasks until others have come, so
//! that a test can tell whether tasks run at once. The tests here: three threads that put and get
//! two keys of one yard at once, and single calls at numbers that are written out.
#![tactic(auto)]

mod failing;
mod failing_yard;
mod late;
mod log;
mod meeting;
mod pair;
mod race;
mod shared_keys;
mod silent;
mod span;
mod watched;
mod watched_yard;

pub use failing::Failing;
pub use failing_yard::{FailingPass, FailingYard};
pub use log::LoggedCall;
pub use meeting::{Awaited, Held, Meeting};
pub use pair::Pair;
pub use shared_keys::exchange;
pub use silent::Silent;
pub use span::FailingCalls;
pub use watched::Watched;
pub use watched_yard::{WatchedPass, WatchedYard};

#[cfg(test)]
mod folders;
#[cfg(test)]
mod lanes;
#[cfg(test)]
mod threads;
