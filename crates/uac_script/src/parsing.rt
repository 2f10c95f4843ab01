// A whole line: its first word names the row.
ghost use Rattle.std.specs.Prelude.{◌≡◌, ◌≤◌, length, IfOk};
ghost use Rattle.uac_lines.specs.Words.{words_left, bytes_left, is_idle};
ghost use Rattle.uac_script.specs.LineParsing.{phrase_result, row_verdict, row_of, answer};
ghost use Rattle.uac_script.specs.Lent.{lent_phrase_result, Fits};
ghost use Rattle.uac_script.specs.LineRules.{row_result};

use crate::lent::{LentLine, LineRoom};
use crate::line::Line;
use crate::lists::{append, run};
use crate::owned::owned_line;
use crate::rows::{alone, break_line_at, control, detail, deviate, element, feed, jack, track};
use crate::rule::LineRule;
use uac_lines::words::Words;

/// Whether a line does nothing: it is empty, or it begins with `#`.
pub fn is_idle(text: &[u8]) -> bool
    ensures { result ≡ is_idle text.now }
{
    match text {
        [] => true,
        [first, ..] => *first == b'#',
    }
}

// The row of a letter, from the words after it.
fn row<'a>(letter: u8, words: Words<'a>, room: &'a mut LineRoom) -> Result<LentLine<'a>, LineRule>
    requires { bytes_left words.rest ≤ 4096 }
    ensures says { row_result result ≡ row_verdict (row_of letter (words_left words.entry.rest)) }
    ensures fits { IfOk result Fits }
{
    match letter {
        b'd' => feed(words, &mut room.bytes),
        b'g' => alone(LentLine::Go, words),
        b'c' => control(words, &mut room.bytes),
        b'h' => element(words),
        b'b' => break_line_at(words),
        b'a' => append(words, &mut room.samples),
        b't' => track(words),
        b'j' => jack(words),
        b'k' => deviate(words),
        b'm' => run(words, &mut room.marks),
        b'v' => detail(words),
        b'q' => alone(LentLine::Report, words),
        _ => Err(LineRule::Unknown),
    }
}

// The line that a text spells, with its long parts in `room`, or the first of rules S2 to S4 that it breaks.
#[tactic(auto, unfolding(crate::specs::LineParsing::answer))]
fn line_spelt<'a>(text: &'a [u8], room: &'a mut LineRoom) -> Result<LentLine<'a>, LineRule>
    requires { length text.now ≤ 4096 }
    ensures says { row_result result ≡ answer text.now }
    ensures fits { IfOk result Fits }
{
    if is_idle(text) {
        return Ok(LentLine::Nothing);
    }
    let mut words = Words::new(text);
    let Some(word) = words.take() else {
        return Err(LineRule::Unknown);
    };
    if word.len() != 1 {
        return Err(LineRule::Unknown);
    }
    row(word[0], words, room)
}

/// The line that a text spells, with its long parts in `room`, or the number of the first of rules S2 to S4 that it breaks.
pub fn read_into<'a>(text: &'a [u8], room: &'a mut LineRoom) -> Result<LentLine<'a>, u8>
    requires { length text.now ≤ 4096 }
    ensures says { lent_phrase_result result ≡ answer text.now }
    ensures fits { IfOk result Fits }
{
    match line_spelt(text, room) {
        Ok(line) => Ok(line),
        Err(rule) => Err(rule.number()),
    }
}

/// The line that a text spells, or the number of the first of rules S2 to S4 that it breaks.
pub fn read(text: &[u8]) -> Result<Line, u8>
    requires { length text.now ≤ 4096 }
    ensures { phrase_result result ≡ answer text.now }
{
    let mut room = LineRoom::new();
    let line = read_into(text, &mut room)?;
    Ok(owned_line(line))
}
