// What flipping, pinning and unpinning write into the lists.
#![tactic(auto)]

pub mod flips;
