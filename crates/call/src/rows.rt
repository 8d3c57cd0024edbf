// The rows of the register.
ghost use Rattle.std.specs.Prelude.{◌≡◌};
ghost use Rattle.order.specs.Lines.{put_at};
ghost use Rattle.model.specs.Register.{granted_row, close_row, open_row};
ghost use Rattle.model.specs.State.{row_read};
ghost use Rattle.call.specs.View.{view};

use crate::tables::Call;
use model::causes::EndCause;
use model::refusals::Refusal;
use model::register::{End, Row};
use order::line::{Line, put_at};
use precedence::claims::Claim;

impl Call {
    // Reads the row of a grant: 0 and numbers not yet granted are refused.
    pub fn row(&self, register: &[Row], number: u16) -> Result<Row, Refusal>
        ensures row { result ≡ row_read (view self.now register.now) number }
    {
        self.granted_row(register, number).ok_or(Refusal::NoSuchRow)
    }

    // The row of a grant, if it was given.
    fn granted_row(&self, register: &[Row], number: u16) -> Option<Row>
        ensures row { result ≡ granted_row number self.now.grants register.now }
    {
        Line::of(usize::from(self.grants)).at(register, usize::from(number))
    }

    // Opens the row of a grant.
    pub(crate) fn open_row(&self, register: &mut [Row], number: u16, claim: Claim)
        ensures rows { register.new ≡ put_at number (open_row claim.camera claim.ground self.now.clock) register.old }
    {
        let row = Row {
            camera: claim.camera,
            ground: claim.ground,
            granted: self.clock,
            end: None,
        };
        put_at(register, usize::from(number), row);
    }

    // Writes the end of a grant into its row.
    pub(crate) fn close_row(&self, register: &mut [Row], number: u16, cause: EndCause)
        ensures rows { register.new ≡ close_row number self.now.grants self.now.clock cause register.old }
    {
        if let Some(row) = self.granted_row(register, number) {
            let end = Some(End {
                second: self.clock,
                cause,
            });
            put_at(register, usize::from(number), Row { end, ..row });
        }
    }
}
