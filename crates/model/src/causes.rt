// Why a transmission is recalled, why it ended, and why a request is rejected; each cause has its number.
ghost use Rattle.std.specs.Prelude.{◌≡◌};
ghost use Rattle.model.specs.Causes.{recall_number, end_number, reject_number};

#[derive(Clone, Copy, Debug, PartialEq, Eq)]
pub enum RecallCause {
    // The talk time is over.
    TimeOut = 2,
    // A claim ahead of it waits.
    PreEmption = 4,
}

impl From<RecallCause> for u8 {
    ghost from_gives = { λ recall number. number ≡ recall_number recall };

    fn from(recall: RecallCause) -> u8 {
        recall as u8
    }
}

#[derive(Clone, Copy, Debug, PartialEq, Eq)]
pub enum EndCause {
    // No call ends a grant for this: a row or an act may have it only as it was lent.
    NotEnded = 0,
    Release = 1,
    TimeOut = 2,
    Leave = 3,
}

impl From<EndCause> for u8 {
    ghost from_gives = { λ end number. number ≡ end_number end };

    fn from(end: EndCause) -> u8 {
        end as u8
    }
}

#[derive(Clone, Copy, Debug, PartialEq, Eq)]
pub enum RejectCause {
    // The camera's transmission is under recall, for this cause.
    Recalled { cause: RecallCause },
    // The camera may only receive.
    ReceiveOnly,
    // Every row of the register is granted or waited for.
    NoRow,
    LineFull,
}

impl From<RejectCause> for u8 {
    ghost from_gives = { λ cause number. number ≡ reject_number cause };

    fn from(cause: RejectCause) -> u8 {
        match cause {
            RejectCause::Recalled { cause } => u8::from(cause),
            RejectCause::ReceiveOnly => 5,
            RejectCause::NoRow => 6,
            RejectCause::LineFull => 7,
        }
    }
}
