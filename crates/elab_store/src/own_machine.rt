// State machines of modules, and which of them is the innermost.
ghost use Rattle.std.specs.Prelude.{◌≡◌};
ghost use Rattle.elab_store.specs.OpenMachines.{is_open, innermost, in_machine};

use crate::store::Store;
use fsm_lowering::Fsm;

/// A state machine, and its module.
#[derive(Drop)]
pub struct OwnMachine {
    pub of: u32,
    pub machine: Fsm,
}

fn is_open(of: u32, own: &OwnMachine) -> bool
    ensures { result ≡ is_open of own.now }
{
    own.of == of && !own.machine.stage().is_finished()
}

impl Store {
    /// The number of the innermost open machine of a module.
    pub fn innermost(&self, of: u32) -> Option<usize>
        ensures { result ≡ innermost of self.now.machines }
    {
        let mut found = None;
        for (k, own) in self.machines.iter().enumerate() {
            if is_open(of, own) {
                found = Some(k);
            }
        }
        found
    }

    /// Whether a module is directly in an `FSM`.
    pub fn in_machine(&self, of: u32) -> bool
        ensures { result ≡ in_machine of self.now.machines }
    {
        let Some(k) = self.innermost(of) else {
            return false;
        };
        match self.machines.get(k) {
            Some(own) => own.machine.stage().is_between(),
            None => false,
        }
    }
}
