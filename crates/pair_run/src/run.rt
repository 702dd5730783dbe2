ghost use Rattle.std.specs.Prelude.{◌≡◌, ◌≤◌, ◌⊎◌, ◌++◌, [], ℕ, Err, All, IsSome, IfOk, OnOk, OnErr, IsErrOf, string_bytes};
ghost use Rattle.wire_io.specs.Devices.{Rose};
ghost use Rattle.pair_run.specs.Running.{AreBegun, AreJoined, Came, CutAfter, IsCutRun, wires};
ghost use Rattle.pair_run.specs.Scripts.{IsLetter, IsBinding, IsFirstUnbound, number_of};
ghost use Rattle.pair_run.specs.Talk.{AreAnswered, Carries, stream, talk, printed, units_of};

use crate::delivery::Cut;
use crate::ends::{PairEnd, RunEnd};
use crate::pair::{SideA, SideB, converse};
use crate::scripts::{Binding, ScriptEnd, first_unbound, latest};
use channel_frames::Deframer;
use rp_base::NoMemory;
use std::alloc::Global;
use wire_io::{Over, Wire};

/// Two scripts that are run: the letters that A asks for, and what B binds, line by line and at its end.
#[derive(Drop)]
pub struct PairScripts {
    pub letters: Vec<u8>,
    pub bindings: Vec<Binding>,
    pub namespace: Vec<Binding>,
}

impl PairScripts {
    /// Joins what A asks for and what B binds, or refuses the line of A's first letter that no line of B binds.
    pub fn new(
        alloc: Global,
        letters: Vec<u8>,
        bindings: Vec<Binding>,
    ) -> Result<PairScripts, ScriptEnd>
        requires letters { All IsLetter letters.items }
        requires bindings { All IsBinding bindings.items }
        ensures kept { IfOk result (λ s. (s.letters.items ≡ letters.items) × (s.bindings.items ≡ bindings.items)) }
        ensures bound { OnOk result (All (λ letter. IsSome (number_of bindings.items letter)) letters.items) }
        ensures joined { IfOk result (λ s. AreJoined s.letters.items s.bindings.items s.namespace.items) }
        ensures refused { (line : ℕ) → result ≡ Err (ScriptEnd.NotYet line) → IsFirstUnbound bindings.items letters.items line }
    {
        let namespace = latest(alloc, &bindings)?;
        match first_unbound(&namespace, &letters) {
            Some(line) => Err(ScriptEnd::NotYet(line)),
            None => Ok(PairScripts {
                letters,
                bindings,
                namespace,
            }),
        }
    }
}

/// Begins both wires, A's first, and has the conversation.
fn begin_and_converse<W: Wire>(
    alloc: Global,
    letters: &[u8],
    a: &mut SideA,
    b: &mut SideB,
    ab: &mut W,
    ba: &mut W,
) -> Result<(), Cut>
    requires answered { AreAnswered b.old.bindings.items letters.now }
    requires idle { (a.old.inbox ≡ []) × (b.old.inbox ≡ []) }
    ensures printed { OnOk result (string_bytes a.new.output ≡ string_bytes a.old.output ++ printed b.old.bindings.items letters.now) }
    ensures begun { OnOk result (AreBegun (wires W.carried W.begun W.fault_count ab.new ba.new)) }
    ensures carried { OnOk result (Carries (stream (talk b.old.bindings.items letters.now)) (W.carried ab.old) (W.carried ab.new) (W.carried ba.old) (W.carried ba.new)) }
    ensures cut { IsErrOf result Cut.Wire → CutAfter b.old.bindings.items letters.now (string_bytes a.old.output) (string_bytes a.new.output)
        (wires W.carried W.begun W.fault_count ab.old ba.old) (wires W.carried W.begun W.fault_count ab.new ba.new) }
    ensures part { OnErr result (IsCutRun b.old.bindings.items letters.now (wires W.carried W.begun W.fault_count ab.old ba.old) (wires W.carried W.begun W.fault_count ab.new ba.new)) }
    ensures later { (W.fault_count ab.old ≤ W.fault_count ab.new) × (W.fault_count ba.old ≤ W.fault_count ba.new) }
    ensures failed { IsErrOf result Cut.Wire → (Rose (W.fault_count ab.old) (W.fault_count ab.new)) ⊎ (Rose (W.fault_count ba.old) (W.fault_count ba.new)) }
{
    ab.begin(Over::Memory)?;
    ba.begin(Over::Memory)?;
    converse(alloc, letters, a, b, ab, ba)?;
    Ok(())
}

/// The units of a run: 2 for each line of B, 2 to make `conn`, 8 for each line of A.
fn units(bindings: &[Binding], letters: &[u8]) -> u128
    ensures { result ≡ units_of bindings.now letters.now }
{
    2 * bindings.len() as u128 + 2 + 8 * letters.len() as u128
}

/// Runs a pair over two wires. They are begun, that from A to B first, before anything is carried.
pub fn run_pair<W: Wire>(
    alloc: Global,
    scripts: PairScripts,
    ab: &mut W,
    ba: &mut W,
) -> Result<PairEnd, NoMemory>
    requires { AreJoined scripts.letters.items scripts.bindings.items scripts.namespace.items }
    ensures came { IfOk result (λ e. Came e.end scripts.bindings.items scripts.letters.items (string_bytes e.out_a) e.units e.tables
        (wires W.carried W.begun W.fault_count ab.old ba.old) (wires W.carried W.begun W.fault_count ab.new ba.new)) }
    ensures silent { IfOk result (λ e. string_bytes e.out_b ≡ []) }
    ensures part { OnErr result (IsCutRun scripts.bindings.items scripts.letters.items (wires W.carried W.begun W.fault_count ab.old ba.old) (wires W.carried W.begun W.fault_count ab.new ba.new)) }
{
    let PairScripts {
        letters,
        bindings,
        namespace,
    } = scripts;
    let units = units(&bindings, &letters);
    let mut a = SideA {
        inbox: Deframer::new(alloc),
        output: String::new(alloc),
    };
    let mut b = SideB {
        inbox: Deframer::new(alloc),
        bindings: namespace,
    };
    match begin_and_converse(alloc, &letters, &mut a, &mut b, ab, ba) {
        Ok(()) => {
            let SideA { inbox: _, output } = a;
            Ok(PairEnd {
                end: RunEnd::Done,
                out_a: output,
                out_b: String::new(alloc),
                units: Some(units),
                tables: Some((0, 2)),
            })
        }
        Err(Cut::Wire) => {
            let SideA { inbox: _, output } = a;
            Ok(PairEnd {
                end: RunEnd::Wire,
                out_a: output,
                out_b: String::new(alloc),
                units: None,
                tables: None,
            })
        }
        Err(Cut::NoMemory) => Err(NoMemory),
    }
}
