// Opening a call: the clock at 0, nobody in, and the register's first rows blank.
ghost use Rattle.std.specs.Prelude.{◌≡◌};
ghost use Rattle.model.specs.Register.{blanked};
ghost use Rattle.model.specs.State.{opened};
ghost use Rattle.call.specs.View.{view};

use crate::tables::Call;
use model::register::{BLANK_ROW, Row};
use model::settings::Settings;
use model::tables::{Member, Transmission};
use order::table::Table;
use precedence::alarms::Alarm;
use precedence::claims::Claim;

impl Call {
    // Makes a call, and blanks the rows that it may grant.
    pub fn open(settings: Settings, register: &mut [Row]) -> Call
        ensures state { view result register.new ≡ opened settings register.old }
        ensures rows { register.new ≡ blanked settings.rows register.old }
    {
        blank(register, usize::from(settings.rows));
        Call {
            settings,
            clock: 0,
            members: Table::new(Member::default()),
            open: Table::new(Transmission::default()),
            claims: Table::new(Claim::default()),
            alarms: Table::new(Alarm::default()),
            grants: 0,
        }
    }
}

fn blank(register: &mut [Row], rows: usize)
    ensures rows { register.new ≡ blanked rows register.old }
{
    let count = rows.min(register.len());
    register[..count].fill(BLANK_ROW);
}
