//! The plans that a memo spells: which nodes spell its members, what they ask of their inputs, and all alternatives of a place.
#![tactic(auto)]

mod alternatives;
mod forms;
pub mod laws;
mod space;
mod spelled;
mod ways;

pub use alternatives::{Alternative, State, alternatives_of, same_state};
pub use forms::{are_different, is_tests};
pub use space::Space;
pub use spelled::ways_of;
pub use ways::{Ask, Want, Way, fits};
