// The four calls on a cue memory: load, clear, fetch and free; and one request for any of them, with the law over every run.
#![tactic(auto)]

pub mod answers;
pub mod calls;
pub mod requests;
