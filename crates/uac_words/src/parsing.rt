// Parsing the words of the command line.
ghost use Rattle.std.specs.Prelude.{◌≡◌, ◌≢◌, ◌⊎◌, IfOk, MatchResult, map, string_bytes};
ghost use Rattle.std.specs.List.{list_all};
ghost use Rattle.std.specs.Char.{is_ascii_digit};
ghost use Rattle.uac_words.specs.Asked.{both, command_named, command_of, command_with, is_decimal, decimal_value_of, rack_named, rate_of};
ghost use Rattle.uac_words.specs.ByClap.{HasMatched, IsAnswer, IsRefused, answer_to_words, invocation_of, invocation_by};
ghost use Rattle.uac_words.specs.ByClap.{invocation_by_rows, now_in};
ghost use Rattle.uac_words.specs.ByClap.{simple_command};
ghost use Rattle.uac_words.specs.CommandLines.{AnswersLine};
ghost use Rattle.uac_words.specs.Plain.{plainly};
ghost use Rattle.clap.specs.Words.{app_of, found_of, kind_of, rows_of};

use crate::commands::{Command, Invocation, RackChoice, WordsFault};
use clap::error::ErrorKind;
use clap::{Arg, ArgAction, ArgMatches, Error};
use std::alloc::{AllocError, Global};
use uac_clock::RATES;

/// The rates of a full-speed stream, in Hz: those up to 96,000.
const FULL_SPEED_RATES: [u32; 10] = [
    8000, 11025, 16000, 22050, 32000, 44100, 48000, 64000, 88200, 96000,
];

/// Whether all of a word are decimal digits.
fn are_digits(word: &[u8]) -> bool
    ensures { result ≡ list_all is_ascii_digit word.now }
{
    word.iter().all(|digit| digit.is_ascii_digit())
}

/// Whether a word is a decimal number without leading zeros.
#[tactic(auto, unfolding(crate::specs::Asked::is_decimal))]
fn is_decimal(word: &[u8]) -> bool
    ensures { result ≡ is_decimal word.now }
{
    if word.is_empty() || (word[0] == b'0' && word.len() > 1) {
        return false;
    }
    are_digits(word)
}

/// The NUMBER that a word spells.
#[tactic(auto, unfolding(crate::specs::Asked::decimal_value_of), using(crate::proofs::AskedDigitLemmas::number_read))]
fn number(word: &str) -> Option<u32>
    ensures { result ≡ decimal_value_of word.now }
{
    if !is_decimal(word.as_bytes()) {
        return None;
    }
    word.parse::<u32>().ok()
}

/// The RATE of these that a word spells.
fn rate(word: &str, rates: &[u32]) -> Option<u32>
    ensures { result ≡ rate_of rates.now word.now }
{
    let rate = number(word)?;
    if !rates.contains(&rate) {
        return None;
    }
    Some(rate)
}

/// The command of this name, of those that take nothing.
fn command_named(word: &str) -> Option<Command>
    ensures { result ≡ command_named word.now }
{
    if word == "check" {
        Some(Command::Check)
    } else if word == "show" {
        Some(Command::Show)
    } else if word == "elements" {
        Some(Command::Elements)
    } else if word == "run" {
        Some(Command::Run)
    } else if word == "settle" {
        Some(Command::Settle)
    } else if word == "panel" {
        Some(Command::Panel)
    } else {
        None
    }
}

/// The command of this name with this NUMBER or RATE.
fn command_with(word: &str, digits: &str) -> Option<Command>
    ensures { result ≡ command_with word.now digits.now }
{
    if word == "gen" {
        Some(Command::Gen(number(digits)?))
    } else if word == "full" {
        Some(Command::Full(rate(digits, &FULL_SPEED_RATES)?))
    } else if word == "pair" {
        Some(Command::Pair(rate(digits, &RATES)?))
    } else {
        None
    }
}

/// The rack of this name.
fn rack_named(word: &str) -> Option<RackChoice>
    ensures { result ≡ rack_named word.now }
{
    if word == "plain" {
        Some(RackChoice::Plain)
    } else if word == "lanes" {
        Some(RackChoice::Lanes)
    } else {
        None
    }
}

/// What COMMAND, NUMBER and the name of a rack ask for.
fn invocation(command: &str, number: Option<&str>, rack: &str) -> Option<Invocation>
    ensures { result ≡ both (command_of command.now (now_in number.entry)) (rack_named rack.now) }
{
    let command = match number {
        None => command_named(command)?,
        Some(digits) => command_with(command, digits)?,
    };
    let rack = rack_named(rack)?;
    Some(Invocation { command, rack })
}

/// The simple command that reads the words.
fn simple_command<'a>(alloc: Global) -> Result<clap::Command<'a>, AllocError>
    ensures { IfOk result (λ c. app_of c ≡ simple_command) }
{
    let command = Arg::new(alloc, "command")
        .required(true)
        .action(ArgAction::Set);
    let number = Arg::new(alloc, "number").action(ArgAction::Set);
    let rack = Arg::new(alloc, "rack")
        .long("rack")
        .action(ArgAction::Set)
        .default_value("plain");
    clap::Command::new(alloc, "uac_cli")
        .no_binary_name(true)
        .disable_help_flag(true)
        .disable_version_flag(true)
        .arg(command)?
        .arg(number)?
        .arg(rack)
}

/// What an error of the simple command comes to.
fn fault_of(error: Error) -> WordsFault
    ensures { (kind_of error ≡ ErrorKind.OutOfMemory) × (result ≡ WordsFault.NoMemory)
        ⊎ (kind_of error ≢ ErrorKind.OutOfMemory) × (result ≡ WordsFault.Usage) }
{
    if error.kind() == ErrorKind::OutOfMemory {
        WordsFault::NoMemory
    } else {
        WordsFault::Usage
    }
}

/// The values that the words give to this command, where it is the simple one and takes them.
fn matched_by<'a>(
    command: clap::Command<'a>,
    words: &'a [String],
) -> Result<ArgMatches<'a>, WordsFault>
    ensures { app_of command.entry ≡ simple_command
        → MatchResult result (HasMatched (map (λ w. string_bytes w) words.now)) (IsRefused (map (λ w. string_bytes w) words.now)) }
{
    match command.try_get_matches_from(words) {
        Ok(matches) => Ok(matches),
        Err(error) => Err(fault_of(error)),
    }
}

/// The values that the words give, where the simple command takes them.
fn matches_in<'a>(alloc: Global, words: &'a [String]) -> Result<ArgMatches<'a>, WordsFault>
    ensures { MatchResult result (HasMatched (map (λ w. string_bytes w) words.now)) (IsRefused (map (λ w. string_bytes w) words.now)) }
{
    let command = simple_command(alloc)?;
    matched_by(command, words)
}

/// What the values of COMMAND, NUMBER and the rack ask for.
fn invocation_by(
    command: Option<&str>,
    number: Option<&str>,
    rack: Option<&str>,
) -> Option<Invocation>
    ensures { result ≡ invocation_by (now_in command.entry) (now_in number.entry) (now_in rack.entry) }
{
    invocation(command?, number, rack?)
}

/// What the values that were matched ask for.
#[tactic(auto, using(crate::proofs::ByClapLemmas::rows_ask))]
fn asked_by_matches(matches: &ArgMatches) -> Option<Invocation>
    ensures { result ≡ invocation_by_rows (rows_of (found_of matches.now)) }
{
    invocation_by(
        matches.get_str("command"),
        matches.get_str("number"),
        matches.get_str("rack"),
    )
}

/// The answer to words that ask for this, or for nothing.
fn answer_to_words(invocation: Option<Invocation>) -> Result<Invocation, WordsFault>
    ensures { result ≡ answer_to_words invocation }
{
    match invocation {
        Some(words) => Ok(words),
        None => Err(WordsFault::Usage),
    }
}

/// What the words after the program's name ask for: by the simple command's own rules, as it is said of the words one after the other,
/// and as command lines are written.
pub fn read(alloc: Global, words: &[String]) -> Result<Invocation, WordsFault>
    ensures by_clap { IsAnswer (invocation_of (map (λ w. string_bytes w) words.now)) result }
    ensures plainly { IsAnswer (plainly (map (λ w. string_bytes w) words.now)) result }
    ensures line { AnswersLine (map (λ w. string_bytes w) words.now) result }
{
    let matches = matches_in(alloc, words)?;
    answer_to_words(asked_by_matches(&matches))
}
