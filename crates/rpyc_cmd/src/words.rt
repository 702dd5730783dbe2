ghost use Rattle.std.specs.Prelude.{◌≡◌, List, ℕ, MatchResult, map, string_bytes, IsTrue};
ghost use Rattle.rpyc_cmd.specs.Words.{is_file_name, Reads, command_of, file_name, file_names, second_name, run_words, run_options, run_fuel, named_fuel, fuel_of, fuel_within};

use itoa::Buffer;

/// What the words of a command line ask for.
#[derive(Clone, Copy, Debug)]
pub enum Command<'a> {
    /// `pair A B`: to run the scripts in these files as a pair.
    Pair { a: &'a str, b: &'a str },
    /// `dump FILE`: to write the frames in this file as text.
    Dump { file: &'a str },
    /// `run FILE`, maybe with `--fuel N`: to run the script in this file alone, within so many units.
    Run { file: &'a str, fuel: u64 },
}

/// The units that a run may spend where no number of them is given.
const USUAL_FUEL: u64 = 10_000_000;

/// The greatest number of units that may be given.
const MOST_FUEL: u64 = 1_000_000_000;

/// The command that the words mean, or the index of the first word that cannot continue a command line (the number of
/// words where more are needed).
pub fn read_words(words: &[String]) -> Result<Command<'_>, usize>
    ensures { Reads result (command_of (map string_bytes words.now)) }
{
    match words {
        [first, names @ ..] if first.as_str() == "pair" => file_names(names),
        [first, names @ ..] if first.as_str() == "dump" => file_name(names),
        [first, others @ ..] if first.as_str() == "run" => run_words(others),
        _ => Err(0),
    }
}

fn file_names(words: &[String]) -> Result<Command<'_>, usize>
    ensures { Reads result (file_names (map string_bytes words.now)) }
{
    match words {
        [a, others @ ..] if is_name(a.as_str()) => second_name(a.as_str(), others),
        _ => Err(1),
    }
}

fn second_name<'a>(a: &'a str, words: &'a [String]) -> Result<Command<'a>, usize>
    ensures { Reads result (second_name a.now (map string_bytes words.now)) }
{
    match words {
        [b] if is_name(b.as_str()) => Ok(Command::Pair { a, b: b.as_str() }),
        [b, ..] if is_name(b.as_str()) => Err(3),
        _ => Err(2),
    }
}

fn file_name(words: &[String]) -> Result<Command<'_>, usize>
    ensures { Reads result (file_name (map string_bytes words.now)) }
{
    match words {
        [file] if is_name(file.as_str()) => Ok(Command::Dump {
            file: file.as_str(),
        }),
        [file, ..] if is_name(file.as_str()) => Err(2),
        _ => Err(1),
    }
}

fn run_words(words: &[String]) -> Result<Command<'_>, usize>
    ensures { Reads result (run_words (map string_bytes words.now)) }
{
    match words {
        [file, options @ ..] if is_name(file.as_str()) => run_options(file.as_str(), options),
        _ => Err(1),
    }
}

fn run_options<'a>(file: &'a str, words: &'a [String]) -> Result<Command<'a>, usize>
    ensures { Reads result (run_options file.now (map string_bytes words.now)) }
{
    match words {
        [] => Ok(Command::Run {
            file,
            fuel: USUAL_FUEL,
        }),
        [flag, words @ ..] if flag.as_str() == "--fuel" => run_fuel(file, words),
        _ => Err(2),
    }
}

fn run_fuel<'a>(file: &'a str, words: &'a [String]) -> Result<Command<'a>, usize>
    ensures { Reads result (run_fuel file.now (map string_bytes words.now)) }
{
    match words {
        [word, others @ ..] => named_fuel(file, others, fuel_of(word.as_str())),
        [] => Err(3),
    }
}

fn named_fuel<'a>(
    file: &'a str,
    words: &'a [String],
    fuel: Option<u64>,
) -> Result<Command<'a>, usize>
    ensures { Reads result (named_fuel file.now (map string_bytes words.now) fuel) }
{
    match (fuel, words) {
        (Some(fuel), []) => Ok(Command::Run { file, fuel }),
        (Some(_), _) => Err(4),
        (None, _) => Err(3),
    }
}

/// The number of units that a word names: in decimal, with no 0 in front unless it is 0, and not above the greatest one.
fn fuel_of(word: &str) -> Option<u64>
    ensures { result ≡ fuel_of word.now }
{
    match u64::from_str_radix(word, 10) {
        Ok(fuel) => fuel_within(word, fuel),
        Err(_) => None,
    }
}

/// The number of units, where it is not above the greatest one and the word is as it is written.
fn fuel_within(word: &str, fuel: u64) -> Option<u64>
    ensures { result ≡ fuel_within word.now fuel }
{
    if fuel > MOST_FUEL {
        return None;
    }
    if Buffer::new().format(fuel) == word {
        Some(fuel)
    } else {
        None
    }
}

fn is_name(word: &str) -> bool
    ensures { result ≡ is_file_name word.now }
{
    match word.as_bytes() {
        [] => false,
        [first, ..] => *first != b'-',
    }
}
