// The public interface of a call.
ghost use Rattle.std.specs.Prelude.{◌≡◌, ◌≤◌, length};
ghost use Rattle.model.specs.Laws.{LawfulEvent, InLine, OnTime, NumbersRise};
ghost use Rattle.model.specs.Register.{blanked};
ghost use Rattle.model.specs.State.{Compare, opened, row_read};
ghost use Rattle.model.specs.Step.{step};
ghost use Rattle.arbiter.specs.View.{seen};

use call::tables::Call;
use model::acts::Reply;
use model::events::Event;
use model::refusals::Refusal;
use model::register::Row;
use model::settings::Settings;
use order::ordering::Ordering;
use precedence::grounds::Ground;

// A call with the register that is lent to it for its life.
#[derive(Drop)]
pub struct Arbiter<'a> {
    call: Call,
    register: &'a mut [Row],
}

impl<'a> Arbiter<'a> {
    // Opens a call with settings that were checked against this register: the clock is at 0, nobody is in, and the
    // first `rows` rows are blank.
    pub fn open(settings: Settings, register: &'a mut [Row]) -> Arbiter<'a>
        requires { settings.rows ≤ length register.old }
        ensures state { seen result ≡ opened settings register.old }
        ensures rows { result.register.now ≡ blanked settings.rows register.old }
        ensures same { result.register.ghost_name ≡ register.entry.ghost_name }
        ensures in_line { (cmp : Compare) → InLine cmp (seen result).tables }
        ensures on_time { OnTime (seen result).tables }
        ensures numbers_rise { NumbersRise (seen result).tables }
    {
        let call = Call::open(settings, register);
        Arbiter { call, register }
    }

    // Handles one event under the rule that is lent.
    pub fn handle<R: Ordering<Item = Ground>>(
        &mut self,
        rule: &R,
        event: Event,
    ) -> Result<Reply, Refusal>
        ensures state { seen self.new ≡ (step (R.Ordering.standing rule.now) (seen self.old) event).0 }
        ensures answer { result ≡ (step (R.Ordering.standing rule.now) (seen self.old) event).1 }
        ensures same { self.new.register.ghost_name ≡ self.old.register.ghost_name }
        ensures lawful { LawfulEvent (R.Ordering.standing rule.now) (seen self.old) event result (seen self.new) }
    {
        self.decide(rule, event)
    }

    // Reads the row of a grant: 0 and numbers not yet granted are refused.
    pub fn row(&self, number: u16) -> Result<Row, Refusal>
        ensures row { result ≡ row_read (seen self.now) number }
    {
        self.call.row(self.register, number)
    }

    // As `handle`: here it is shown that what is promised of every event follows from what its step is.
    fn decide<R: Ordering<Item = Ground>>(
        &mut self,
        rule: &R,
        event: Event,
    ) -> Result<Reply, Refusal>
        ensures state { seen self.new ≡ (step (R.Ordering.standing rule.now) (seen self.old) event).0 }
        ensures answer { result ≡ (step (R.Ordering.standing rule.now) (seen self.old) event).1 }
        ensures same { self.new.register.ghost_name ≡ self.old.register.ghost_name }
        ensures lawful { LawfulEvent (R.Ordering.standing rule.now) (seen self.old) event result (seen self.new) }
    {
        self.call.handle(self.register, rule, event)
    }
}
