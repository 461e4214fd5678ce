// Whole runs of two endpoints, and what holds of every run.
#![tactic(auto)]

pub mod exchange;
pub mod rehearse;
mod run;
