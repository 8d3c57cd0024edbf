// One call: its tables, and what each event makes of them and of the register that is lent.
#![tactic(auto)]

pub mod alarms;
pub mod answers;
pub mod clock;
pub mod events;
pub mod finding;
pub mod leaving;
pub mod members;
pub mod opening;
pub mod preemption;
pub mod recalls;
pub mod requests;
pub mod rows;
pub mod tables;
pub mod transmissions;
