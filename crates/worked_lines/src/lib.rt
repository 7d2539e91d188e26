// The worked network: its lines, and further ones, established by one computation over the definitions of the promise.
#![tactic(auto)]

pub mod theorems;
