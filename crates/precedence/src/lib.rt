// Grounds, the rules of precedence among them, and the orderings of claims and of alarms.
#![tactic(auto)]

pub mod alarms;
pub mod claims;
pub mod grading;
pub mod grounds;
pub mod rules;
