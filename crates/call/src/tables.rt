// The state of a call: four tables, each with the line of those that it holds.
ghost use Rattle.std.specs.Prelude.{◌+◌, ◌≤◌, length};

use model::settings::Settings;
use model::tables::{Member, Transmission};
use order::table::Table;
use precedence::alarms::Alarm;
use precedence::claims::Claim;

// As many cameras as a call holds.
pub const MEMBERS: usize = 64;
// As many transmissions as may be open together, whatever the settings.
pub const OPEN: usize = 16;
// As many claims as may wait, whatever the settings.
pub const CLAIMS: usize = 32;
// The last second that a clock may reach.
pub const LAST_SECOND: u32 = 4_000_000_000;

// A call. What the comments say of order holds of every call that events have made from its opening on. The register is
// lent to its functions and is no field: each of them would then have to promise that it is the same one after. Nor is
// the rule, which is lent at each call by a rule of the project.
#[derive(Drop)]
pub struct Call {
    pub(crate) settings: Settings,
    pub(crate) clock: u32,
    // The cameras in the call, in joining order.
    pub(crate) members: Table<Member, MEMBERS>,
    // The open transmissions, in the order of their grants.
    pub(crate) open: Table<Transmission, OPEN>,
    // The claims, by precedence.
    pub(crate) claims: Table<Claim, CLAIMS>,
    // An alarm for each open transmission, by due second.
    pub(crate) alarms: Table<Alarm, OPEN>,
    // How many grants were given.
    pub(crate) grants: u16,
    // A due second fits 32 bits.
    ghost in_time: { clock ≤ 4000000000 },
    // Every claim has a row left for it, and a grant number fits 16 bits.
    ghost rows_left: { grants + length claims ≤ settings.rows },
}
