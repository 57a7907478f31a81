//! Calls at the register are taken, and their answers told.

ghost use Rattle.std.specs.Prelude.{◌≡◌, ◌≢◌, IfOk, IfErr, MatchOption, Some, is_some};
ghost use Rattle.r6_world.specs.Steps.{No_call, Told};
ghost use Rattle.r6_core.specs.Shards.{Step, core_of, call_of};
ghost use Rattle.r6_core.specs.Effects.{KeepsRequests, HandsCall};
ghost use Rattle.r6_core.specs.Inside.{IsCore, Seen};

use crate::call::Call;
use crate::refusal::Refusal;
use crate::state::State;
use r6_health::{Answer, Refusal as RegisterRefusal};

impl State {
    // Whether a call was taken whose answer isn't told.
    pub(crate) fn has_untold(&self) -> bool
        ensures { result ≡ is_some self.now.untold }
    {
        self.untold.is_some()
    }

    /// Takes the call that is to be made next at the register, if the answer of the one before was told.
    pub(crate) fn take_call(&mut self) -> Option<Call>
        requires { IsCore self.old }
        ensures core { IsCore self.new }
        ensures step { MatchOption result
            (Step (core_of self.old) No_call (core_of self.new))
            (λ call. HandsCall (core_of self.old) call (core_of self.new)) }
        ensures kept { Seen KeepsRequests self.old self.new }
        ensures frames { self.new.frames ≡ self.old.frames }
    {
        if self.has_untold() {
            return None;
        }
        let call = self.calls.pop_front()?;
        self.untold = Some(call);
        Some(call)
    }

    /// Hears the answer of the call that was taken. One that came between others' calls is to be made again, before
    /// the others.
    pub(crate) fn told(
        &mut self,
        call: Call,
        answer: Result<Answer, RegisterRefusal>,
    ) -> Result<(), Refusal>
        requires { IsCore self.old }
        ensures core { IsCore self.new }
        ensures step { IfOk result (λ _. Step (core_of self.old) (Told (call_of call) answer) (core_of self.new)) }
        ensures refused { IfErr result (λ refusal.
            (self.new ≡ self.old) × (refusal ≡ Refusal.UnknownCall) × (self.old.untold ≢ Some call)) }
        ensures known { IfOk result (λ _. self.old.untold ≡ Some call) }
        ensures kept { Seen KeepsRequests self.old self.new }
        ensures frames { self.new.frames ≡ self.old.frames }
    {
        if self.untold != Some(call) {
            return Err(Refusal::UnknownCall);
        }
        self.untold = None;
        if answer == Err(RegisterRefusal::Contended) {
            let Ok(()) = self.calls.try_push_front(call) else {
                unreachable!()
            };
        }
        Ok(())
    }
}
