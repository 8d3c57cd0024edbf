// What a listing shows of an act.
ghost use Rattle.std.specs.Prelude.{Some};
ghost use Rattle.model.specs.Shown.{act_text};

use crate::acts::Act;
use std::fmt;

impl fmt::Display for Act {
    ghost output = { λ act. Some (act_text act) };

    fn fmt<W: fmt::Write>(&self, f: &mut fmt::Formatter<W>) -> fmt::Result {
        let word = self.word();
        let number = self.number();
        let camera = self.camera();
        let value = self.value();
        write!(f, "act={word} no={number} cam={camera} value={value}")
    }
}
