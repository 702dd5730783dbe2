ghost use Rattle.std.specs.Prelude.{◌≡◌, ◌<◌, map, vec_len};
ghost use Rattle.host_api.specs.Modules.{module_of, AreArguments, KeepsLimits, HasTakenAt, IsNameAt, SaysAt};

use crate::host::{Host, HostAnswer, call, has, name};
use rp_base::Plain;
use std::alloc::Global;

/// The name of a module of the list.
pub fn name_at(hosts: &Vec<Box<dyn Host>>, at: usize) -> &str
    requires { at < vec_len hosts.now }
    ensures { IsNameAt (map (λ b. module_of (title b) (functions b) (rule b) (state b)) hosts.now.items) at result.now }
{
    name(&hosts[at])
}

/// Whether a module of the list has a function of this name.
pub fn has_at(hosts: &Vec<Box<dyn Host>>, at: usize, func: &str) -> bool
    requires { at < vec_len hosts.now }
    ensures { SaysAt (map (λ b. module_of (title b) (functions b) (rule b) (state b)) hosts.now.items) at func.now result }
{
    has(&hosts[at], func)
}

/// Calls a function of a module of the list. All else of the list stays: the others, and its name, functions and rule.
pub fn call_at(
    hosts: &mut Vec<Box<dyn Host>>,
    at: usize,
    alloc: Global,
    func: &str,
    args: &[Plain],
) -> HostAnswer
    requires there { at < vec_len hosts.old }
    requires arguments { AreArguments args.now }
    ensures size { vec_len hosts.new ≡ vec_len hosts.old }
    ensures taken { HasTakenAt (map (λ b. module_of (title b) (functions b) (rule b) (state b)) hosts.old.items) at func.now args.now result (map (λ b. module_of (title b) (functions b) (rule b) (state b)) hosts.new.items) }
    ensures limits { KeepsLimits result }
{
    let host = &mut hosts[at];
    call(host, alloc, func, args)
}
