// A bench: a script of calls at an endpoint, and the listing of their answers.
#![tactic(auto)]

pub mod command;
mod listing;
mod pool;
pub mod refusal;
pub mod run;
mod script;
mod stop;
