// Checking the settings that are asked for.
ghost use Rattle.std.specs.Prelude.{◌≡◌, ◌≤◌, IfOk};
ghost use Rattle.model.specs.Settings.{read, asked};

use crate::refusals::Refusal;
use crate::settings::{Settings, Wanted};

impl Settings {
    // The settings, if each is in its range and no more rows are asked for than are lent.
    pub fn checked(wanted: Wanted, lent: usize) -> Result<Settings, Refusal>
        ensures value { read result ≡ asked wanted lent }
        ensures lent { IfOk result (λ s. s.rows ≤ lent) }
    {
        // One test after another: of one condition over all of them the proof did not close.
        if wanted.limit == 0 || wanted.limit > 16 {
            return Err(Refusal::Setting);
        }
        if wanted.line == 0 || wanted.line > 32 {
            return Err(Refusal::Setting);
        }
        if wanted.talk == 0 || wanted.grace == 0 || wanted.grace > 600 {
            return Err(Refusal::Setting);
        }
        if wanted.rows == 0 || wanted.rows > 2000 || usize::from(wanted.rows) > lent {
            return Err(Refusal::Setting);
        }
        if wanted.server == 0 {
            return Err(Refusal::Setting);
        }
        // Field by field: a `Wanted` inside would stand between every setting and its use.
        Ok(Settings {
            limit: wanted.limit,
            line: wanted.line,
            talk: wanted.talk,
            grace: wanted.grace,
            rows: wanted.rows,
            server: wanted.server,
        })
    }
}
