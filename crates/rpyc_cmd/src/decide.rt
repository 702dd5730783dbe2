ghost use Rattle.std.specs.Prelude.{◌≡◌, ◌≤◌, ℕ, map, IfOk, OnOk, IfErr, OnErr, All, IsSome, ◌⊎◌, string_bytes};
ghost use Rattle.pair_run.specs.Running.{AreJoined, IsCutRun, wires};
ghost use Rattle.pair_run.specs.Scripts.{AsksFor, Binds, IsFirstOtherQuestion, IsFirstOtherBinding, IsFirstUnbound, IsLetter, IsBinding, number_of};
ghost use Rattle.rpyc_cmd.specs.Deciding.{IfRefused, IfNoMemory, RefusesScript, Finished};
ghost use Rattle.rpyc_cmd.specs.Outcome.{Asks, BindsAll, IsScript, IsNoScript, IsScriptOf, IsReportedRun, RunsAlone, IsAloneRefusal, IsTextRefusal, Holds, IsFileRefusal, IsRefusal, AreAccepted, IsDecided, IsDumped, PairGives, PairRunsOut, Gives, AskedRunsOut, Decides, RunsOut, Ends, outside, Unbegun};
ghost use Rattle.rpyc_cmd.specs.Report.{script_line};
ghost use Rattle.rpyc_cmd.specs.Words.{asked_by};

use crate::alone_report::{run_report, run_status};
use crate::report::{not_there_text, pair_report, read_fault_text, script_text, words_text};
use crate::status::Status;
use crate::words::{Command, read_words};
use nested_serve::run_alone;
use pair_run::{Binding, PairScripts, RunEnd, ScriptEnd, bindings, questions, run_pair};
use py_ast::Program;
use py_scope::{AcceptEnd, accept};
use report_text::{Dump, dump};
use rp_base::{Blob, NoMemory, Rule, Text};
use std::alloc::Global;
use wire_io::{FileAnswer, Files, Sink, Wire, WireEnd, write_all};

/// A text to write, and the status that goes with it.
#[derive(Drop)]
pub struct Decided {
    pub status: Status,
    pub text: Text,
}

/// Why no run was begun.
#[derive(Drop)]
pub enum Stop {
    Refused(Decided),
    NoMemory,
}

impl From<NoMemory> for Stop {
    ghost use Rattle.rpyc_cmd.specs.declared.decide.Stop.TheVariants as stop;

    ghost from_gives = { λ _ e. e ≡ stop.NoMemory };

    fn from(_error: NoMemory) -> Stop {
        Stop::NoMemory
    }
}

/// Reads a file.
fn read_file<F: Files>(alloc: Global, name: &str, files: &mut F) -> Result<Blob, Stop>
    ensures read { IfOk result (λ bytes. Holds (F.held files.old) name.now bytes) }
    ensures refused { IfErr result (IfRefused (λ decided text. (decided ≡ Status.File)
        × IsFileRefusal (F.held files.old) name.now (F.fault_count files.old) (F.fault_count files.new) text)) }
    ensures kept { F.held files.new ≡ F.held files.old }
    ensures later { F.fault_count files.old ≤ F.fault_count files.new }
{
    let text = match files.read(alloc, name) {
        FileAnswer::Bytes(bytes) => return Ok(bytes),
        FileAnswer::NotThere => not_there_text(alloc, name)?,
        FileAnswer::Failed => read_fault_text(alloc, name)?,
        FileAnswer::NoMemory => return Err(Stop::NoMemory),
    };
    Err(Stop::Refused(Decided {
        status: Status::File,
        text,
    }))
}

/// The refusal of a script at a line by a rule.
fn refusal(alloc: Global, name: &str, line: usize, rule: Rule) -> Stop
    ensures { IfRefused (λ decided text. (decided ≡ Status.Script) × (text ≡ script_line name.now line rule)) result }
{
    match script_text(alloc, name, line, rule) {
        Ok(text) => Stop::Refused(Decided {
            status: Status::Script,
            text,
        }),
        Err(NoMemory) => Stop::NoMemory,
    }
}

/// The program of a text, or its refusal where it is no script of the language.
#[tactic(auto, unfolding(crate::specs::Outcome::IsScriptOf, crate::specs::Outcome::IsNoScript))]
fn read_program(alloc: Global, name: &str, text: &[u8]) -> Result<Program, Stop>
    ensures accepted { IfOk result (λ program. IsScriptOf text.now program) }
    ensures refused { IfErr result (IfRefused (RefusesScript (λ refused line rule. (refused ≡ name.now) × IsNoScript text.now line rule))) }
{
    match accept(alloc, text) {
        Ok(program) => Ok(program),
        Err(AcceptEnd::Refused(refused)) => {
            Err(refusal(alloc, name, refused.line as usize, refused.rule))
        }
        Err(AcceptEnd::NoMemory) => Err(Stop::NoMemory),
    }
}

/// Refuses a text that is no script of the language.
#[tactic(auto, unfolding(crate::specs::Outcome::IsScript))]
fn check_script(alloc: Global, name: &str, text: &[u8]) -> Result<(), Stop>
    ensures accepted { OnOk result (IsScript text.now) }
    ensures refused { IfErr result (IfRefused (RefusesScript (λ refused line rule. (refused ≡ name.now) × IsNoScript text.now line rule))) }
{
    match read_program(alloc, name, text) {
        Ok(_program) => Ok(()),
        Err(stop) => Err(stop),
    }
}

/// The letters that A's script asks for.
fn letters_of(alloc: Global, name_a: &str, text_a: &[u8]) -> Result<Vec<u8>, Stop>
    ensures asks { IfOk result (λ letters. Asks text_a.now letters.items) }
    ensures refused { IfErr result (IfRefused (RefusesScript (λ refused line rule. (refused ≡ name_a.now) × IsTextRefusal IsFirstOtherQuestion text_a.now line rule))) }
{
    check_script(alloc, name_a, text_a)?;
    match questions(alloc, text_a) {
        Ok(letters) => Ok(letters),
        Err(ScriptEnd::NotYet(line)) => Err(refusal(alloc, name_a, line, Rule::NotYet)),
        Err(ScriptEnd::NoMemory) => Err(Stop::NoMemory),
    }
}

/// What B's script binds.
fn bindings_of(alloc: Global, name_b: &str, text_b: &[u8]) -> Result<Vec<Binding>, Stop>
    ensures binds { IfOk result (λ bindings. BindsAll text_b.now bindings.items) }
    ensures refused { IfErr result (IfRefused (RefusesScript (λ refused line rule. (refused ≡ name_b.now) × IsTextRefusal IsFirstOtherBinding text_b.now line rule))) }
{
    check_script(alloc, name_b, text_b)?;
    match bindings(alloc, text_b) {
        Ok(bindings) => Ok(bindings),
        Err(ScriptEnd::NotYet(line)) => Err(refusal(alloc, name_b, line, Rule::NotYet)),
        Err(ScriptEnd::NoMemory) => Err(Stop::NoMemory),
    }
}

/// Joins what A asks for and what B binds.
fn join(
    alloc: Global,
    name: &str,
    letters: Vec<u8>,
    bindings: Vec<Binding>,
) -> Result<PairScripts, Stop>
    requires letters { All IsLetter letters.items }
    requires bindings { All IsBinding bindings.items }
    ensures kept { IfOk result (λ s. (s.letters.items ≡ letters.items) × (s.bindings.items ≡ bindings.items)) }
    ensures bound { OnOk result (All (λ letter. IsSome (number_of bindings.items letter)) letters.items) }
    ensures joined { IfOk result (λ s. AreJoined s.letters.items s.bindings.items s.namespace.items) }
    ensures refused { IfErr result (IfRefused (RefusesScript (λ refused line rule. (refused ≡ name.now) × IsFirstUnbound bindings.items letters.items line × (rule ≡ Rule.NotYet)))) }
{
    match PairScripts::new(alloc, letters, bindings) {
        Ok(scripts) => Ok(scripts),
        Err(ScriptEnd::NotYet(line)) => Err(refusal(alloc, name, line, Rule::NotYet)),
        Err(ScriptEnd::NoMemory) => Err(Stop::NoMemory),
    }
}

/// The two scripts, or the first refusal.
fn read_scripts(
    alloc: Global,
    name_a: &str,
    text_a: &[u8],
    name_b: &str,
    text_b: &[u8],
) -> Result<PairScripts, Stop>
    ensures accepted { IfOk result (λ s. AreAccepted text_a.now text_b.now s.letters.items s.bindings.items) }
    ensures joined { IfOk result (λ s. AreJoined s.letters.items s.bindings.items s.namespace.items) }
    ensures refused { IfErr result (IfRefused (RefusesScript (IsRefusal name_a.now text_a.now name_b.now text_b.now))) }
{
    let letters = letters_of(alloc, name_a, text_a)?;
    let bindings = bindings_of(alloc, name_b, text_b)?;
    match join(alloc, name_a, letters, bindings) {
        Ok(scripts) => Ok(scripts),
        Err(stop) => Err(stop),
    }
}

/// Runs two scripts, and writes their report.
fn decide_run<W: Wire>(
    alloc: Global,
    scripts: PairScripts,
    ab: &mut W,
    ba: &mut W,
) -> Result<Decided, NoMemory>
    requires { AreJoined scripts.letters.items scripts.bindings.items scripts.namespace.items }
    ensures decided { IfOk result (λ d. IsDecided d.status scripts.bindings.items scripts.letters.items d.text (wires W.carried W.begun W.fault_count ab.old ba.old) (wires W.carried W.begun W.fault_count ab.new ba.new)) }
    ensures part { OnErr result (IsCutRun scripts.bindings.items scripts.letters.items (wires W.carried W.begun W.fault_count ab.old ba.old) (wires W.carried W.begun W.fault_count ab.new ba.new)) }
{
    let e = run_pair(alloc, scripts, ab, ba)?;
    let text = pair_report(alloc, &e)?;
    match e.end {
        RunEnd::Done => Ok(Decided {
            status: Status::Done,
            text,
        }),
        RunEnd::Wire => Ok(Decided {
            status: Status::Device,
            text,
        }),
    }
}

/// Reads both files and runs their scripts.
fn decide_pair<F: Files, W: Wire>(
    alloc: Global,
    name_a: &str,
    name_b: &str,
    files: &mut F,
    ab: &mut W,
    ba: &mut W,
) -> Result<Decided, Stop>
    ensures decided { IfOk result (λ d. PairGives d.status name_a.now name_b.now (outside F.held F.fault_count W.carried W.begun W.fault_count files.old ab.old ba.old) (outside F.held F.fault_count W.carried W.begun W.fault_count files.new ab.new ba.new) d.text) }
    ensures refused { IfErr result (IfRefused (λ decided text. PairGives decided name_a.now name_b.now (outside F.held F.fault_count W.carried W.begun W.fault_count files.old ab.old ba.old) (outside F.held F.fault_count W.carried W.begun W.fault_count files.new ab.new ba.new) text)) }
    ensures cut { IfErr result (IfNoMemory (Unbegun (outside F.held F.fault_count W.carried W.begun W.fault_count files.old ab.old ba.old) (outside F.held F.fault_count W.carried W.begun W.fault_count files.new ab.new ba.new) ⊎ PairRunsOut name_a.now name_b.now (outside F.held F.fault_count W.carried W.begun W.fault_count files.old ab.old ba.old) (outside F.held F.fault_count W.carried W.begun W.fault_count files.new ab.new ba.new))) }
    ensures kept { F.held files.new ≡ F.held files.old }
{
    let text_a = read_file(alloc, name_a, files)?;
    let text_b = read_file(alloc, name_b, files)?;
    match read_scripts(alloc, name_a, text_a.as_slice(), name_b, text_b.as_slice()) {
        Ok(scripts) => match decide_run(alloc, scripts, ab, ba) {
            Ok(decided) => Ok(decided),
            Err(NoMemory) => Err(Stop::NoMemory),
        },
        Err(stop) => Err(stop),
    }
}

/// Reads a file of frames, and writes them as text.
fn decide_dump<F: Files>(alloc: Global, name: &str, files: &mut F) -> Result<Decided, Stop>
    ensures decided { IfOk result (λ d. IsDumped d.status (F.held files.old) name.now d.text) }
    ensures refused { IfErr result (IfRefused (λ decided text. (decided ≡ Status.File)
        × IsFileRefusal (F.held files.old) name.now (F.fault_count files.old) (F.fault_count files.new) text)) }
    ensures kept { F.held files.new ≡ F.held files.old }
{
    let bytes = read_file(alloc, name, files)?;
    let Dump { text, fault } = dump(alloc, bytes.as_slice())?;
    match fault {
        None => Ok(Decided {
            status: Status::Done,
            text,
        }),
        Some(_) => Ok(Decided {
            status: Status::Peer,
            text,
        }),
    }
}

/// Runs a program alone, and writes its report.
#[tactic(auto, unfolding(crate::specs::Outcome::IsReportedRun))]
fn run_program(alloc: Global, program: Program, fuel: u64) -> Result<Decided, NoMemory>
    ensures { IfOk result (λ d. IsReportedRun d.status program fuel d.text) }
{
    let run = run_alone(alloc, program, fuel)?;
    Ok(Decided {
        status: run_status(&run.end),
        text: run_report(alloc, &run)?,
    })
}

/// Reads a file, and runs its script alone.
fn decide_alone<F: Files>(
    alloc: Global,
    name: &str,
    fuel: u64,
    files: &mut F,
) -> Result<Decided, Stop>
    ensures decided { IfOk result (λ d. RunsAlone name.now fuel (F.held files.old) d.status d.text) }
    ensures refused { IfErr result (IfRefused (IsAloneRefusal name.now (F.held files.old) (F.fault_count files.old) (F.fault_count files.new))) }
    ensures kept { F.held files.new ≡ F.held files.old }
{
    let bytes = read_file(alloc, name, files)?;
    match read_program(alloc, name, bytes.as_slice()) {
        Ok(program) => match run_program(alloc, program, fuel) {
            Ok(decided) => Ok(decided),
            Err(NoMemory) => Err(Stop::NoMemory),
        },
        Err(stop) => Err(stop),
    }
}

/// Does what a command asks for.
fn decide_command<F: Files, W: Wire>(
    alloc: Global,
    command: Command<'_>,
    files: &mut F,
    ab: &mut W,
    ba: &mut W,
) -> Result<Decided, Stop>
    ensures decided { IfOk result (λ d. Gives d.status (asked_by command.entry) (outside F.held F.fault_count W.carried W.begun W.fault_count files.old ab.old ba.old) (outside F.held F.fault_count W.carried W.begun W.fault_count files.new ab.new ba.new) d.text) }
    ensures refused { IfErr result (IfRefused (λ decided text. Gives decided (asked_by command.entry) (outside F.held F.fault_count W.carried W.begun W.fault_count files.old ab.old ba.old) (outside F.held F.fault_count W.carried W.begun W.fault_count files.new ab.new ba.new) text)) }
    ensures cut { IfErr result (IfNoMemory (AskedRunsOut (asked_by command.entry) (outside F.held F.fault_count W.carried W.begun W.fault_count files.old ab.old ba.old) (outside F.held F.fault_count W.carried W.begun W.fault_count files.new ab.new ba.new))) }
    ensures kept { F.held files.new ≡ F.held files.old }
{
    match command {
        Command::Pair { a, b } => decide_pair(alloc, a, b, files, ab, ba),
        Command::Dump { file } => decide_dump(alloc, file, files),
        Command::Run { file, fuel } => decide_alone(alloc, file, fuel, files),
    }
}

/// What the program decides on before it writes.
fn decide<F: Files, W: Wire>(
    alloc: Global,
    words: &[String],
    files: &mut F,
    ab: &mut W,
    ba: &mut W,
) -> Result<Decided, NoMemory>
    ensures decided { IfOk result (λ d. Decides d.status (map string_bytes words.now) (outside F.held F.fault_count W.carried W.begun W.fault_count files.old ab.old ba.old) (outside F.held F.fault_count W.carried W.begun W.fault_count files.new ab.new ba.new) d.text) }
    ensures cut { OnErr result (RunsOut (map string_bytes words.now) (outside F.held F.fault_count W.carried W.begun W.fault_count files.old ab.old ba.old) (outside F.held F.fault_count W.carried W.begun W.fault_count files.new ab.new ba.new)) }
    ensures kept { F.held files.new ≡ F.held files.old }
{
    match read_words(words) {
        Ok(command) => match decide_command(alloc, command, files, ab, ba) {
            Ok(decided) => Ok(decided),
            Err(Stop::Refused(decided)) => Ok(decided),
            Err(Stop::NoMemory) => Err(NoMemory),
        },
        Err(at) => Ok(Decided {
            status: Status::Words,
            text: words_text(alloc, at)?,
        }),
    }
}

/// Writes the text that was decided on.
fn finish<K: Sink>(decided: &Decided, out: &mut K) -> Status
    ensures { Finished decided.now.status result decided.now.text (K.told out.old) (K.fault_count out.old) (K.told out.new) (K.fault_count out.new) }
{
    match write_all(out, decided.text.as_str().as_bytes()) {
        Ok(()) => decided.status,
        Err(WireEnd::NoMemory) => Status::NoMemory,
        Err(WireEnd::Failed) => match decided.status {
            Status::Done => Status::Output,
            status => status,
        },
    }
}

/// All that the program does: reads the words, runs the pair or the script or reads the frames, and writes what came of
/// it.
///
/// Everything that is written goes to `out`. The two wires are those from A to B and from B to A; they are begun in
/// this order, after all refusals and before the run.
pub fn run_cmd<F: Files, K: Sink, W: Wire>(
    alloc: Global,
    words: &[String],
    files: &mut F,
    out: &mut K,
    ab: &mut W,
    ba: &mut W,
) -> Status
    ensures ends { Ends result (map string_bytes words.now) (outside F.held F.fault_count W.carried W.begun W.fault_count files.old ab.old ba.old) (outside F.held F.fault_count W.carried W.begun W.fault_count files.new ab.new ba.new) (K.told out.old) (K.fault_count out.old) (K.told out.new) (K.fault_count out.new) }
    ensures kept { F.held files.new ≡ F.held files.old }
{
    match decide(alloc, words, files, ab, ba) {
        Ok(decided) => finish(&decided, out),
        Err(NoMemory) => Status::NoMemory,
    }
}
