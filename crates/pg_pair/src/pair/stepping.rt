//! Steps of the backend.

ghost use Rattle.std.specs.Prelude.{◌≡◌};
ghost use Rattle.pg_backend.specs.Backend.{phase_of};
ghost use Rattle.pg_pair.specs.Stepping.{step_applied, StepsUnlessClosed};

use crate::carry::Carry;
use crate::event::Applied;
use crate::known::known;
use crate::pair::Pair;
use crate::pair::breaking::is_closed_backend;
use pg_backend::BackendFault;

// What comes of a step.
fn step_applied(answer: Result<bool, BackendFault>) -> Applied
    ensures { result ≡ step_applied answer }
{
    match answer {
        Ok(true) => Applied::Done,
        Ok(false) => Applied::Nothing,
        Err(fault) => Applied::Backend(fault),
    }
}

impl<C: Carry> Pair<C> {
    // The backend makes a step.
    pub(crate) fn step(&mut self) -> Applied
        ensures { StepsUnlessClosed (phase_of self.old.backend.stage) self.old result self.new }
    {
        known();
        if is_closed_backend(self.backend.phase()) {
            return Applied::Nothing;
        }
        step_applied(self.backend.step(&mut self.to_client.sent))
    }
}
