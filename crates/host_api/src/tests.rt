ghost use Rattle.std.specs.Prelude.{◌≡◌, ◌<◌, vec_len, [], codes, length, pos, if◌then◌else◌};
ghost use Rattle.std.specs.Str.{bytes_eq};
ghost use Rattle.rp_base.specs.declared.exceptions.ExcKind.TheVariants as kind;
ghost use Rattle.rp_base.specs.declared.plain.Plain.TheVariants as plain;
ghost use Rattle.host_api.specs.declared.host.HostAnswer.TheVariants as answer;

use crate::host::{Host, HostAnswer};
use crate::list::{call_at, has_at, name_at};
use rp_base::{ExcKind, Plain, Raised};
use sqlite_items::Items;
use std::alloc::Global;
use std::test::Fail;

/// Its function `count` gives the number of arguments of the call before.
#[derive(Drop)]
struct Tally {
    name: &'static str,
    last: usize,
}

impl Host for Tally {
    ghost state = { λ t. plain.Int (pos t.last) };

    ghost rule = { λ _ s func args. if bytes_eq func (codes "count") then (answer.Value s, plain.Int (pos (length args))) else (answer.Raise (record { kind = kind.TypeError; args = [] }), s) };

    ghost title = { λ t. t.name.now };

    ghost functions = { λ _ func. bytes_eq func (codes "count") };

    fn name(&self) -> &str {
        self.name
    }

    fn has(&self, func: &str) -> bool {
        func == "count"
    }

    #[tactic(auto, using(crate::proofs::Limits::empty_within))]
    fn call(&mut self, alloc: Global, func: &str, args: &[Plain]) -> HostAnswer {
        if func != "count" {
            return HostAnswer::Raise(Raised {
                kind: ExcKind::TypeError,
                args: Items::new(alloc),
            });
        }
        let last = self.last;
        self.last = args.len();
        HostAnswer::Value(Plain::Int(last as i128))
    }
}

fn number_of(answer: HostAnswer) -> Option<i128> {
    match answer {
        HostAnswer::Value(Plain::Int(n)) => Some(n),
        _ => None,
    }
}

/// What a call without arguments answers, where it is an int.
#[tactic(auto, using(crate::proofs::Limits::no_arguments))]
fn ask(hosts: &mut Vec<Box<dyn Host>>, at: usize, alloc: Global, func: &str) -> Option<i128>
    requires { at < vec_len hosts.old }
    ensures { vec_len hosts.new ≡ vec_len hosts.old }
{
    number_of(call_at(hosts, at, alloc, func, &[]))
}

#[test]
fn a_list_of_modules(rt: HostRuntime) -> Result<(), Fail> {
    let alloc = rt.alloc();
    let first = Tally {
        name: "first",
        last: 5,
    };
    let second = Tally {
        name: "second",
        last: 7,
    };
    let mut hosts: Vec<Box<dyn Host>> = Vec::new(alloc);
    hosts.push(Box::new(alloc, first)?)?;
    hosts.push(Box::new(alloc, second)?)?;
    assert_eq!(rt;
        (name_at(&hosts, 0), name_at(&hosts, 1)),
        ("first", "second")
    );
    assert_eq!(rt;
        (has_at(&hosts, 1, "count"), has_at(&hosts, 1, "first")),
        (true, false)
    );
    assert_eq!(rt; ask(&mut hosts, 0, alloc, "count"), Some(5));
    assert_eq!(rt; ask(&mut hosts, 0, alloc, "count"), Some(0));
    assert_eq!(rt; ask(&mut hosts, 1, alloc, "count"), Some(7));
    assert_eq!(rt; ask(&mut hosts, 1, alloc, "last"), None);
    Ok(())
}
