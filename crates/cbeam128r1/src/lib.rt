// CBEAM128r1: a telegram sealed or opened by one call.
#![tactic(auto)]

pub mod form;
pub mod one_shot;
pub mod vectors;
