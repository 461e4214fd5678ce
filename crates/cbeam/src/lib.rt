// The permutation of CBEAMr1 in two forms, each as a mixing engine.
#![tactic(auto)]

pub mod both_forms;
pub mod budgeted;
pub mod example;
pub mod form;
mod phi;
pub mod place;
pub mod plain;
pub mod planar;
mod word;
pub mod words;
