// What a line of a panel's script says.
ghost use Rattle.std.specs.Prelude.{◌≡◌, ◌≤◌, length};
ghost use Rattle.std.specs.Option.{option_and_then};
ghost use Rattle.uac_lines.specs.Words.{words_left};
ghost use Rattle.uac_lines.specs.WordParsing.{pair_of};
ghost use Rattle.uac_script.specs.LineParsing.{answer, when_empty};
ghost use Rattle.uac_status.specs.DeskLines.{desk_line_result};
ghost use Rattle.uac_status.specs.DeskPhrases.{desk_answer, desk_verdict, follow_line, table_said, turn_line_of};

use uac_lines::numbers::{is_number, signed_number};
use uac_lines::words::Words;
use uac_script::{LentLine, LineRoom, is_idle};

/// Rule S2: no row has this first word.
const UNKNOWN: u8 = 2;

/// Rule S3: the words aren't as in the table.
const MISSPELT: u8 = 3;

/// Rule S4: a number is out of range.
const OUT_OF_RANGE: u8 = 4;

/// A line of a panel's script.
#[derive(Clone, Copy, Debug)]
pub enum DeskLine<'a> {
    /// A line of the table of lines.
    Table(LentLine<'a>),
    /// Turns the knob of an element.
    Turn(&'a [u8], i32),
    /// Follows the messages that wait.
    Follow,
}

/// The line that a text spells, with its long parts in `room`, or the first of rules S2 to S4 that it breaks.
#[tactic(auto, unfolding(crate::specs::DeskPhrases::desk_answer, uac_script::specs::LineParsing::answer))]
pub(crate) fn read<'a>(text: &'a [u8], room: &'a mut LineRoom) -> Result<DeskLine<'a>, u8>
    requires { length text.now ≤ 4096 }
    ensures { desk_line_result result ≡ desk_answer text.now }
{
    if is_idle(text) {
        return Ok(DeskLine::Table(LentLine::Nothing));
    }
    let mut words = Words::new(text);
    let Some(word) = words.take() else {
        return Err(UNKNOWN);
    };
    if word == b"w".as_slice() {
        return turn(words);
    }
    if word == b"n".as_slice() {
        return follow(words);
    }
    read_table(text, room)
}

/// A line of the table of lines.
fn read_table<'a>(text: &'a [u8], room: &'a mut LineRoom) -> Result<DeskLine<'a>, u8>
    requires { length text.now ≤ 4096 }
    ensures { desk_line_result result ≡ table_said (answer text.now) }
{
    match LentLine::read(text, room) {
        Ok(line) => Ok(DeskLine::Table(line)),
        Err(rule) => Err(rule),
    }
}

/// A knob, by its element's name and the value.
fn turn(words: Words<'_>) -> Result<DeskLine<'_>, u8>
    ensures { desk_line_result result ≡ desk_verdict (option_and_then turn_line_of (pair_of (words_left words.entry.rest))) }
{
    let Some((name, numeral)) = words.pair() else {
        return Err(MISSPELT);
    };
    if name.is_empty() || !is_number(numeral) {
        return Err(MISSPELT);
    }
    match signed_number(numeral) {
        Some(value) => Ok(DeskLine::Turn(name, value)),
        None => Err(OUT_OF_RANGE),
    }
}

/// The messages, alone on their line.
fn follow<'a>(words: Words<'_>) -> Result<DeskLine<'a>, u8>
    ensures { desk_line_result result ≡ desk_verdict (when_empty follow_line (words_left words.entry.rest)) }
{
    if words.is_empty() {
        Ok(DeskLine::Follow)
    } else {
        Err(MISSPELT)
    }
}
