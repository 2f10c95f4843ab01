// The rows of the table of lines, each read from the words after the first one.
ghost use Rattle.std.specs.Prelude.{◌≡◌, ◌≤◌, length, IsTrue, IfSome, IfOk};
ghost use Rattle.std.specs.Option.{option_copied, option_and_then};
ghost use Rattle.uac_lines.specs.Words.{words_left, bytes_left};
ghost use Rattle.uac_lines.specs.WordParsing.{only_of, pair_of};
ghost use Rattle.uac_script.specs.LineParsing.{verdict_of, tone_verdict, signal_verdict, name_in, when_empty};
ghost use Rattle.uac_script.specs.LineParsing.{bytes_line_of, control_line_of, element_line_of, break_line_of, tone_read, signal_of};
ghost use Rattle.uac_script.specs.LineParsing.{track_line_of, jack_line_of, deviate_line_of, detail_line_of, set_line_of, sent_of, ramp_of};
ghost use Rattle.uac_script.specs.LineParsing.{from_number};
ghost use Rattle.uac_script.specs.Phrase.{silent, noise_tone, is_in_range};
ghost use Rattle.uac_script.specs.Lent.{lent_phrase, Fits};
ghost use Rattle.uac_script.specs.LineRules.{row_result, tone_result, signal_result};

use crate::lent::LentLine;
use crate::rule::LineRule;
use uac_lines::hex_bytes::{bytes, setup};
use uac_lines::numbers::{id, is_number, signed_number, within};
use uac_lines::words::Words;
use uac_pcm::Tone;

/// A line that has no word but its first.
pub fn alone<'a>(line: LentLine<'a>, words: Words<'_>) -> Result<LentLine<'a>, LineRule>
    requires range { IsTrue (is_in_range (lent_phrase line)) }
    requires room { Fits line }
    ensures says { row_result result ≡ (verdict_of (when_empty (lent_phrase line.entry) (words_left words.entry.rest))) }
    ensures fits { IfOk result Fits }
{
    if words.is_empty() {
        Ok(line)
    } else {
        Err(LineRule::Misspelt)
    }
}

/// The next bytes of the descriptor.
pub fn feed<'a>(words: Words<'_>, room: &'a mut [u8; 2048]) -> Result<LentLine<'a>, LineRule>
    requires { bytes_left words.rest ≤ 4097 }
    ensures says { row_result result ≡ verdict_of (bytes_line_of (words_left words.entry.rest)) }
    ensures fits { IfOk result Fits }
{
    let Some(digits) = words.only() else {
        return Err(LineRule::Misspelt);
    };
    match bytes(digits, room) {
        Some(bytes) => Ok(LentLine::Bytes(bytes)),
        None => Err(LineRule::Misspelt),
    }
}

// The bytes that a control transfer sends.
fn bytes_sent<'a>(words: Words<'_>, room: &'a mut [u8; 2048]) -> Option<&'a [u8]>
    requires { bytes_left words.rest ≤ 4097 }
    ensures sent { option_copied result ≡ sent_of (words_left words.entry.rest) }
    ensures fits { IfSome result (λ sent. length sent.now ≤ 2048) }
{
    if words.is_empty() {
        return Some(&room[..0]);
    }
    let digits = words.only()?;
    bytes(digits, room)
}

/// A control transfer.
pub fn control<'a>(mut words: Words<'_>, room: &'a mut [u8; 2048]) -> Result<LentLine<'a>, LineRule>
    requires { bytes_left words.rest ≤ 4097 }
    ensures says { row_result result ≡ verdict_of (control_line_of (words_left words.entry.rest)) }
    ensures fits { IfOk result Fits }
{
    let Some(head) = words.take() else {
        return Err(LineRule::Misspelt);
    };
    let Some(setup) = setup(head) else {
        return Err(LineRule::Misspelt);
    };
    match bytes_sent(words, room) {
        Some(sent) => Ok(LentLine::Control { setup, sent }),
        None => Err(LineRule::Misspelt),
    }
}

// A name: any word but the empty one.
fn name(word: &[u8]) -> Option<&[u8]>
    ensures name { option_copied result ≡ name_in word.now }
    ensures same { IfSome result (λ name. length name.now ≡ length word.now) }
{
    if word.is_empty() {
        return None;
    }
    Some(word)
}

// The last word, as a name.
fn last_name(words: Words<'_>) -> Option<&[u8]>
    requires { bytes_left words.rest ≤ 4097 }
    ensures name { option_copied result ≡ option_and_then name_in (only_of (words_left words.entry.rest)) }
    ensures fits { IfSome result (λ name. length name.now ≤ 4096) }
{
    let word = words.only()?;
    name(word)
}

// Sets an element, by its name and the value.
fn set(words: Words<'_>) -> Result<LentLine<'_>, LineRule>
    requires { bytes_left words.rest ≤ 4097 }
    ensures says { row_result result ≡ verdict_of (option_and_then set_line_of (pair_of (words_left words.entry.rest))) }
    ensures fits { IfOk result Fits }
{
    let Some((word, numeral)) = words.pair() else {
        return Err(LineRule::Misspelt);
    };
    if !is_number(numeral) {
        return Err(LineRule::Misspelt);
    }
    let Some(name) = name(word) else {
        return Err(LineRule::Misspelt);
    };
    match signed_number(numeral) {
        Some(value) => Ok(LentLine::Set(name, value)),
        None => Err(LineRule::OutOfRange),
    }
}

/// Reads, sets or shows an element.
pub fn element(mut words: Words<'_>) -> Result<LentLine<'_>, LineRule>
    requires { bytes_left words.rest ≤ 4097 }
    ensures says { row_result result ≡ verdict_of (element_line_of (words_left words.entry.rest)) }
    ensures fits { IfOk result Fits }
{
    let Some(verb) = words.take() else {
        return Err(LineRule::Misspelt);
    };
    if verb == b"set".as_slice() {
        return set(words);
    }
    let get = verb == b"get".as_slice();
    if !get && verb != b"show".as_slice() {
        return Err(LineRule::Misspelt);
    }
    match last_name(words) {
        Some(name) if get => Ok(LentLine::Get(name)),
        Some(name) => Ok(LentLine::Show(name)),
        None => Err(LineRule::Misspelt),
    }
}

/// The next transfer breaks.
pub fn break_line_at<'a>(words: Words<'_>) -> Result<LentLine<'a>, LineRule>
    ensures says { row_result result ≡ verdict_of (break_line_of (words_left words.entry.rest)) }
    ensures fits { IfOk result Fits }
{
    let Some(word) = words.only() else {
        return Err(LineRule::Misspelt);
    };
    if word == b"before".as_slice() {
        Ok(LentLine::Break { after: false })
    } else if word == b"after".as_slice() {
        Ok(LentLine::Break { after: true })
    } else {
        Err(LineRule::Misspelt)
    }
}

// The tone of a track or a jack.
fn tone(mut words: Words<'_>) -> Result<Tone, LineRule>
    ensures { tone_result result ≡ tone_verdict (tone_read (words_left words.entry.rest)) }
{
    let Some(kind) = words.take() else {
        return Err(LineRule::Misspelt);
    };
    if kind == b"none".as_slice() {
        silence(words)
    } else if kind == b"ramp".as_slice() {
        ramp(words)
    } else if kind == b"noise".as_slice() {
        noise(words)
    } else {
        Err(LineRule::Misspelt)
    }
}

// A tone of zeros has no numbers.
fn silence(words: Words<'_>) -> Result<Tone, LineRule>
    ensures { tone_result result ≡ tone_verdict (when_empty silent (words_left words.entry.rest)) }
{
    if words.is_empty() {
        Ok(Tone::Silent)
    } else {
        Err(LineRule::Misspelt)
    }
}

// A straight line has its start and its step.
fn ramp(words: Words<'_>) -> Result<Tone, LineRule>
    ensures { tone_result result ≡ tone_verdict (option_and_then ramp_of (pair_of (words_left words.entry.rest))) }
{
    let Some((start, step)) = words.pair() else {
        return Err(LineRule::Misspelt);
    };
    if !is_number(start) || !is_number(step) {
        return Err(LineRule::Misspelt);
    }
    let Some(start) = signed_number(start) else {
        return Err(LineRule::OutOfRange);
    };
    let Some(step) = signed_number(step) else {
        return Err(LineRule::OutOfRange);
    };
    Ok(Tone::Ramp { start, step })
}

// Noise has its seed.
fn noise(words: Words<'_>) -> Result<Tone, LineRule>
    ensures { tone_result result ≡ tone_verdict (option_and_then (from_number noise_tone) (only_of (words_left words.entry.rest))) }
{
    let Some(seed) = words.only() else {
        return Err(LineRule::Misspelt);
    };
    if !is_number(seed) {
        return Err(LineRule::Misspelt);
    }
    match within(seed, 0, i64::from(u32::MAX)) {
        Some(seed) => Ok(Tone::Noise { seed: seed as u32 }),
        None => Err(LineRule::OutOfRange),
    }
}

// An id and its tone.
fn signal(mut words: Words<'_>) -> Result<(u8, Tone), LineRule>
    ensures { signal_result result ≡ signal_verdict (signal_of (words_left words.entry.rest)) }
{
    let Some(word) = words.take() else {
        return Err(LineRule::Misspelt);
    };
    if !is_number(word) {
        return Err(LineRule::Misspelt);
    }
    let tone = tone(words)?;
    match id(word) {
        Some(id) => Ok((id, tone)),
        None => Err(LineRule::OutOfRange),
    }
}

/// The tone of a track.
pub fn track<'a>(words: Words<'_>) -> Result<LentLine<'a>, LineRule>
    ensures says { row_result result ≡ verdict_of (track_line_of (words_left words.entry.rest)) }
    ensures fits { IfOk result Fits }
{
    let (interface, tone) = signal(words)?;
    Ok(LentLine::Track { interface, tone })
}

/// The tone of an input jack.
pub fn jack<'a>(words: Words<'_>) -> Result<LentLine<'a>, LineRule>
    ensures says { row_result result ≡ verdict_of (jack_line_of (words_left words.entry.rest)) }
    ensures fits { IfOk result Fits }
{
    let (terminal, tone) = signal(words)?;
    Ok(LentLine::Jack { terminal, tone })
}

/// The deviation of a domain.
pub fn deviate<'a>(words: Words<'_>) -> Result<LentLine<'a>, LineRule>
    ensures says { row_result result ≡ verdict_of (deviate_line_of (words_left words.entry.rest)) }
    ensures fits { IfOk result Fits }
{
    let Some((domain, ppm)) = words.pair() else {
        return Err(LineRule::Misspelt);
    };
    if !is_number(domain) || !is_number(ppm) {
        return Err(LineRule::Misspelt);
    }
    let Some(domain) = id(domain) else {
        return Err(LineRule::OutOfRange);
    };
    match within(ppm, -100_000, 100_000) {
        Some(ppm) => Ok(LentLine::Deviate {
            domain,
            ppm: ppm as i32,
        }),
        None => Err(LineRule::OutOfRange),
    }
}

/// How much is printed.
pub fn detail<'a>(words: Words<'_>) -> Result<LentLine<'a>, LineRule>
    ensures says { row_result result ≡ verdict_of (detail_line_of (words_left words.entry.rest)) }
    ensures fits { IfOk result Fits }
{
    let Some(level) = words.only() else {
        return Err(LineRule::Misspelt);
    };
    if !is_number(level) {
        return Err(LineRule::Misspelt);
    }
    match within(level, 0, 2) {
        Some(level) => Ok(LentLine::Detail(level as u8)),
        None => Err(LineRule::OutOfRange),
    }
}
