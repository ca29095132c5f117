//! The words of the command line, read.

ghost use Rattle.std.specs.Prelude.{◌≡◌, ◌≤◌, ◌⊎◌, ◌↔◌, IsTrue, IfOk, IfErr, map, [], option_map};
ghost use Rattle.clap.specs.Words.{IsAmong, fault_of, found_of, kind_of, matches_of, rows_of};
ghost use Rattle.ob_words.specs.Settings.{chosen, number_or, oberon, settings_of, SettingsAre};

use crate::asked::{Settings, WordsFault};
use crate::numbers::number_of;
use clap::error::ErrorKind;
use clap::{Arg, ArgAction, ArgMatches, Command, Error};
use std::alloc::Global;

// What the words say by themselves.
fn matches<'a>(alloc: Global, words: &'a [String]) -> Result<ArgMatches<'a>, Error>
    ensures ok { IfOk result (λ m. (fault_of oberon (map (λ w. w.bytes.items) words.now) ≡ []) × (rows_of (found_of m) ≡ matches_of oberon (map (λ w. w.bytes.items) words.now))) }
    ensures err { IfErr result (λ e. (kind_of e ≡ ErrorKind.OutOfMemory) ⊎ IsAmong (kind_of e) (fault_of oberon (map (λ w. w.bytes.items) words.now))) }
{
    let turns = Arg::new(alloc, "turns")
        .long("turns")
        .action(ArgAction::Set);
    let heap = Arg::new(alloc, "heap").long("heap").action(ArgAction::Set);
    let command = Command::new(alloc, "oberon")
        .no_binary_name(true)
        .disable_help_flag(true)
        .disable_version_flag(true)
        .arg(turns)?
        .arg(heap)?;
    command.try_get_matches_from(words)
}

// The number that a word says, or the usual one.
fn number_or(usual: u32, most: u32, text: Option<&str>) -> Option<u32>
    requires { most ≤ 1000000000 }
    ensures { result ≡ number_or usual most (option_map (λ t. t.now) text.entry) }
{
    match text {
        None => Some(usual),
        Some(text) => number_of(most, text.as_bytes()),
    }
}

fn chosen(turns: Option<u32>, heap: Option<u32>) -> Option<Settings>
    ensures { result ≡ chosen turns heap }
{
    let turns = turns?;
    let heap = heap?;
    Some(Settings { turns, heap })
}

fn is_memory(error: &Error) -> bool
    ensures { IsTrue result ↔ (kind_of error.now ≡ ErrorKind.OutOfMemory) }
{
    error.kind() == ErrorKind::OutOfMemory
}

/// The settings that the words behind the program's name say: `--turns N` and `--heap N`, each at
/// most once, in any order, in the forms that clap takes (`--turns=5` too, and a `--` at the
/// end). A number has 1 to 10 decimal digits. Without an option the turns are 10,000,000 and the
/// heap has 1,048,576 words.
///
/// `Refused` comes exactly where the words are none of these, or a number is out of its range.
pub fn settings(alloc: Global, words: &[String]) -> Result<Settings, WordsFault>
    ensures are { SettingsAre (settings_of (map (λ w. w.bytes.items) words.now)) result }
    ensures turns { IfOk result (λ s. (1 ≤ s.turns) × (s.turns ≤ 1000000000)) }
    ensures heap { IfOk result (λ s. (1 ≤ s.heap) × (s.heap ≤ 4194304)) }
{
    match matches(alloc, words) {
        Ok(matches) => {
            let turns = number_or(10_000_000, 1_000_000_000, matches.get_str("turns"));
            let heap = number_or(1_048_576, 4_194_304, matches.get_str("heap"));
            match chosen(turns, heap) {
                Some(settings) => Ok(settings),
                None => Err(WordsFault::Refused),
            }
        }
        Err(error) => {
            if is_memory(&error) {
                return Err(WordsFault::Memory);
            }
            Err(WordsFault::Refused)
        }
    }
}
