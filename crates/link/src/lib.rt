// One end of a link: authenticated telegrams over any mixing engine.
#![tactic(auto)]

mod block;
mod blocks;
pub mod call;
mod cost;
pub mod endpoint;
mod operation;
pub mod phase;
pub mod refusal;
mod tag;
mod telegram;
mod wipe;
