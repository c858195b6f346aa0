// A job: a cost, an order of waiting and a lookahead, at work on a mesh that the caller lends with each call.
#![tactic(auto)]

pub mod checks;
pub mod job;

use mesh::{Plan, Refusal, Vertex};

// A call, with what it is asked.
#[derive(Clone, Copy, PartialEq, Eq, Debug)]
pub enum Call {
    Lay(Plan),
    Add(Vertex),
    // By the number of a half-edge.
    Flip(u32),
    Pin(u32),
    Unpin(u32),
}

// What a call answers.
#[derive(Clone, Copy, PartialEq, Eq, Debug)]
pub enum Answer {
    Refused(Refusal),
    // The mesh's cost.
    Laid(u64),
    // The new vertex's number.
    Added(u32),
    // The mesh's cost before and after.
    Flipped(u64, u64),
    // The edge's number.
    Pinned(u32),
    Unpinned(u32),
}
