//! What a change of an image keeps, its effect on the meaning of the image, and the shape of a call that makes it: a
//! preparation that no reader sees, then one store of eight bytes, within a bound on stores and barriers.
#![tactic(auto)]

pub mod image_laws;
pub mod laws;
