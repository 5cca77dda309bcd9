//! What a script's crash keeps: crash points that the script spells out, and storms.
#![tactic(auto)]

pub mod caches;
pub mod choices;
mod cut;
pub mod generator;
pub mod laws;
pub mod random_crashes;

pub use caches::cache;
pub use choices::choice_of;
pub use cut::Cut;
pub use generator::Generator;
pub use random_crashes::storm;
