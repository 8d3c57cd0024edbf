// The arbiter: a call with the register that is lent to it for its life.
#![tactic(auto)]

pub mod arbiter;
