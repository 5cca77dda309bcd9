//! Tests of a volume and of `run`, as a caller in Rattle sees them, for whatever no row of `bp_rows` shows. The
//! samples of the layers below are in `bp_samples`, whose images these tests use.
#![tactic(auto)]

#[cfg(test)]
mod shell;
#[cfg(test)]
mod volume;
