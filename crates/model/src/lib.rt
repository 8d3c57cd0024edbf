// The words of a call: settings, events, acts, replies, refusals, and the entries of its tables.
#![tactic(auto)]

pub mod acts;
pub mod causes;
pub mod checking;
pub mod events;
pub mod lookup;
pub mod refusals;
pub mod register;
pub mod settings;
pub mod shown;
pub mod tables;
