// The rows of the table of lines that end in a list of words: samples, or marks.
ghost use Rattle.std.specs.Prelude.{◌≡◌, ◌≤◌, true, false, length, map, MatchOption, IsTrue, IfSome, IfOk};
ghost use Rattle.std.specs.Option.{option_copied};
ghost use Rattle.std.specs.List.{list_all};
ghost use Rattle.uac_lines.specs.Words.{words_left, bytes_left};
ghost use Rattle.uac_lines.specs.ScriptNumerals.{is_number};
ghost use Rattle.uac_lines.specs.Ranges.{is_id};
ghost use Rattle.uac_script.specs.LineParsing.{verdict_of, append_line_of, microframes_line_of, samples_of, mark_kind_of, is_mark, mark_of};
ghost use Rattle.uac_script.specs.Phrase.{are_marks_in_range};
ghost use Rattle.uac_script.specs.Line.{phrase_mark};
ghost use Rattle.uac_script.specs.Lent.{Fits};
ghost use Rattle.uac_script.specs.LineRules.{row_result};

use crate::lent::LentLine;
use crate::line::{Mark, MarkKind};
use crate::rule::LineRule;
use arrayvec::ArrayVec;
use uac_lines::numbers::{id, is_number, signed_number, within};
use uac_lines::words::Words;

// Whether all the words are numbers.
fn are_numbers(mut words: Words<'_>) -> bool
    ensures { result ≡ list_all is_number (words_left words.entry.rest) }
{
    while let Some(word) = words.take() {
        if !is_number(word) {
            return false;
        }
    }
    true
}

// The samples that the words spell, where each is in range.
fn samples<'a>(mut words: Words<'_>, samples: &'a mut ArrayVec<i32, 2048>) -> Option<&'a [i32]>
    requires numbers { IsTrue (list_all is_number (words_left words.rest)) }
    requires room { bytes_left words.rest ≤ 4096 }
    ensures samples { option_copied result ≡ samples_of (words_left words.entry.rest) }
    ensures fits { IfSome result (λ samples. length samples.now ≤ 2048) }
{
    samples.clear();
    while let Some(word) = words.take() {
        samples.push(signed_number(word)?);
    }
    Some(samples.as_slice())
}

/// Samples for a track.
pub fn append<'a>(
    mut words: Words<'_>,
    room: &'a mut ArrayVec<i32, 2048>,
) -> Result<LentLine<'a>, LineRule>
    requires { bytes_left words.rest ≤ 4096 }
    ensures says { row_result result ≡ verdict_of (append_line_of (words_left words.entry.rest)) }
    ensures fits { IfOk result Fits }
{
    let Some(interface) = words.take() else {
        return Err(LineRule::Misspelt);
    };
    if words.is_empty() || !is_number(interface) || !are_numbers(words) {
        return Err(LineRule::Misspelt);
    }
    let Some(interface) = id(interface) else {
        return Err(LineRule::OutOfRange);
    };
    match samples(words, room) {
        Some(samples) => Ok(LentLine::Append { interface, samples }),
        None => Err(LineRule::OutOfRange),
    }
}

// What a mark's letter stands for.
fn kind(letter: u8) -> Option<MarkKind>
    ensures { result ≡ mark_kind_of letter }
{
    match letter {
        b'o' => Some(MarkKind::Out),
        b'i' => Some(MarkKind::In),
        b'f' => Some(MarkKind::Feedback),
        _ => None,
    }
}

// Whether a word is spelt as a mark: a letter and a number.
fn is_mark(word: &[u8]) -> bool
    ensures { result ≡ is_mark word.now }
{
    match word {
        [] => false,
        [letter, number @ ..] => kind(*letter).is_some() && is_number(number),
    }
}

// The mark that a word spells, where its interface is in range.
fn mark(word: &[u8]) -> Option<Mark>
    requires { IsTrue (is_mark word.now) }
    ensures { MatchOption result (is_id (mark_of word.now).interface ≡ false)
        (λ mark. (is_id (mark_of word.now).interface ≡ true) × (phrase_mark mark ≡ mark_of word.now)) }
{
    let (letter, number) = word.split_first()?;
    let kind = kind(*letter)?;
    let interface = id(number)?;
    Some(Mark { kind, interface })
}

// Whether all the words are spelt as marks.
fn are_marks(mut words: Words<'_>) -> bool
    ensures { result ≡ list_all is_mark (words_left words.entry.rest) }
{
    while let Some(word) = words.take() {
        if !is_mark(word) {
            return false;
        }
    }
    true
}

// The marks that the words spell, where each is in range and there are no more than 24.
fn marks<'a>(mut words: Words<'_>, marks: &'a mut ArrayVec<Mark, 24>) -> Option<&'a [Mark]>
    requires { IsTrue (list_all is_mark (words_left words.rest)) }
    ensures marks { MatchOption result (are_marks_in_range (map mark_of (words_left words.entry.rest)) ≡ false)
        (λ marks. (are_marks_in_range (map mark_of (words_left words.entry.rest)) ≡ true)
        × (map phrase_mark marks.now ≡ map mark_of (words_left words.entry.rest))) }
    ensures fits { IfSome result (λ marks. length marks.now ≤ 24) }
{
    marks.clear();
    while let Some(word) = words.take() {
        let mark = mark(word)?;
        if marks.try_push(mark).is_err() {
            return None;
        }
    }
    Some(marks.as_slice())
}

/// Microframes, and what is lost in each of them.
pub fn run<'a>(
    mut words: Words<'_>,
    room: &'a mut ArrayVec<Mark, 24>,
) -> Result<LentLine<'a>, LineRule>
    ensures says { row_result result ≡ verdict_of (microframes_line_of (words_left words.entry.rest)) }
    ensures fits { IfOk result Fits }
{
    let Some(count) = words.take() else {
        return Err(LineRule::Misspelt);
    };
    if !is_number(count) || !are_marks(words) {
        return Err(LineRule::Misspelt);
    }
    let Some(count) = within(count, 1, 8_000) else {
        return Err(LineRule::OutOfRange);
    };
    match marks(words, room) {
        Some(marks) => Ok(LentLine::Run {
            count: count as u32,
            marks,
        }),
        None => Err(LineRule::OutOfRange),
    }
}
