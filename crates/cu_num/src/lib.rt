//! Element types, wrapping, promotion, scalar functions, and an element as a word and as bytes.
#![tactic(auto)]

mod division;
mod elements;
mod folds;
mod functions;
mod laws;
mod layout;
mod promotion;
mod scalars;
mod shifts;
mod type_names;
mod types;
mod words;
mod wrapping;

pub use elements::{load, save};
pub use folds::{FoldKind, fold_accepts, fold_type};
pub use functions::{Fn1, Fn2, accepts1, accepts2, result1, result2};
pub use laws::{
    element_law, element_write_law, floor_division_law, promotion_law, type_name_law, word_law,
    wrap_arithmetic_law, wrap_law,
};
pub use layout::{Encoding, Endian, Sep};
pub use promotion::promote;
pub use scalars::{scalar1, scalar2};
pub use type_names::{dtype_named, type_name};
pub use types::{Dtype, greatest, in_range, is_bool, is_signed, least, size, width};
pub use words::{number, word};
pub use wrapping::wrap;
