ghost use Rattle.std.specs.Prelude.{◌≡◌, ℕ, Bool, List};
ghost use Rattle.rp_base.specs.declared.plain.Plain.{Plain};
ghost use Rattle.host_api.specs.Modules.{Rule, AreArguments, KeepsLimits, HasTaken};

use rp_base::{Plain, Raised};
use std::alloc::Global;

/// What a call of a module's function answers.
#[derive(Drop)]
pub enum HostAnswer {
    Value(Plain),
    Raise(Raised),
    NoMemory,
}

/// A module that the program around a side offers to scripts: a state, and a rule that gives, for each state, function
/// and arguments, one answer and one next state. Its name, its functions and its rule never change.
pub trait Host: Drop {
    ghost state: { Self → Plain };

    ghost rule: { Self → Rule };

    ghost title: { Self → List ℕ };

    ghost functions: { Self → List ℕ → Bool };

    /// The module's name.
    fn name(&self) -> &str
        ensures { result.now ≡ title self.now };

    /// Whether the module has a function of this name.
    fn has(&self, func: &str) -> bool
        ensures { result ≡ functions self.now func.now };

    /// Calls a function. Want of memory leaves the state.
    fn call(&mut self, alloc: Global, func: &str, args: &[Plain]) -> HostAnswer
        requires { AreArguments args.now }
        ensures rule { rule self.new ≡ rule self.old }
        ensures title { title self.new ≡ title self.old }
        ensures functions { functions self.new ≡ functions self.old }
        ensures taken { HasTaken (rule self.old) (state self.old) func.now args.now result (state self.new) }
        ensures limits { KeepsLimits result };
}

/// The name of a boxed module.
pub fn name(host: &Box<dyn Host>) -> &str
    ensures { result.now ≡ title host.now }
{
    host.name()
}

/// Whether a boxed module has a function of this name.
pub fn has(host: &Box<dyn Host>, func: &str) -> bool
    ensures { result ≡ functions host.now func.now }
{
    host.has(func)
}

/// Calls a function of a boxed module. Want of memory leaves the state.
pub fn call(host: &mut Box<dyn Host>, alloc: Global, func: &str, args: &[Plain]) -> HostAnswer
    requires { AreArguments args.now }
    ensures rule { rule host.new ≡ rule host.old }
    ensures title { title host.new ≡ title host.old }
    ensures functions { functions host.new ≡ functions host.old }
    ensures taken { HasTaken (rule host.old) (state host.old) func.now args.now result (state host.new) }
    ensures limits { KeepsLimits result }
{
    host.call(alloc, func, args)
}
