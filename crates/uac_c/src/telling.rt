// From words and an input to the caller's room: what the program says, called with these words.
ghost use Rattle.std.specs.Prelude.{◌≡◌, ◌≢◌, ◌≤◌, ◌<◌, ◌++◌, length, take, drop, map, string_bytes, IfOk};
ghost use Rattle.uac_ends.specs.Exit.{exit_number};
ghost use Rattle.uac_ends.specs.Outcome.{Outcome};
ghost use Rattle.uac_c.specs.Telling.{CallComesTo, IsTold};
ghost use Rattle.uac_c.specs.Putting.{IsPut};

use crate::kept::KeptText;
use std::alloc::{AllocError, Global};
use uac_boxes::run_in_boxes;
use uac_descriptor::{ByteList, NoMemory};
use uac_edges::SteadySource;
use uac_ends::Status;

/// What the program answers.
#[derive(Drop)]
struct Answer {
    status: Status,
    text: Vec<u8>,
}

/// Does what the words ask for over this input, writes as much of the text as there is room for, and returns the number of the status.
pub fn tell(alloc: Global, words: &[&str], input: &[u8], text: &mut [u8], written: &mut usize) -> u8
    ensures fits { written.new ≤ length text.old }
    ensures told { IsTold (map (λ word. word.now) words.now) input.now text.old text.new written.new result }
{
    match answer_to(alloc, words, input) {
        Ok(answer) => put(&answer, text, written),
        Err(NoMemory) => {
            *written = 0;
            Status::NoMemory as u8
        }
    }
}

/// What the program answers to the words over this input.
fn answer_to(alloc: Global, words: &[&str], input: &[u8]) -> Result<Answer, NoMemory>
    ensures answered { (outcome : Outcome) → CallComesTo (map (λ word. word.now) words.now) input.now outcome
        → IfOk result (λ answer. (answer.status ≡ outcome.status) × (answer.text.items ≡ outcome.text)) }
    ensures whole { IfOk result (λ answer. answer.status ≢ Status.WriteFault) }
{
    let words = spelled(alloc, words)?;
    let mut source = SteadySource::new(ByteList::from_slice(alloc, input)?);
    let mut sink = KeptText::new(alloc);
    let ended = run_in_boxes(alloc, &words, &mut source, &mut sink)?;
    let status = told(ended)?;
    Ok(Answer {
        status,
        text: sink.into_bytes(),
    })
}

/// The status of a call whose whole text was kept: the sink fails only where there is no memory for it.
fn told(status: Status) -> Result<Status, NoMemory>
    ensures same { IfOk result (λ told. told ≡ status) }
    ensures written { IfOk result (λ told. told ≢ Status.WriteFault) }
    ensures found { IfOk result (λ told. told ≢ Status.NoMemory) }
{
    match status {
        Status::WriteFault | Status::NoMemory => Err(NoMemory),
        Status::Ok
        | Status::Descriptor
        | Status::Script
        | Status::Usage
        | Status::ReadFault
        | Status::TooLong => Ok(status),
    }
}

/// The words, each as a string of its own.
fn spelled(alloc: Global, words: &[&str]) -> Result<Vec<String>, AllocError>
    ensures { IfOk result (λ list. map (λ word. string_bytes word) list.items ≡ map (λ word. word.now) words.now) }
{
    let mut list = Vec::new(alloc);
    for word in words {
        list.push(String::from_str(alloc, word)?)?;
    }
    Ok(list)
}

/// Copies the front of the answer's text for which there is room, and returns the number of its status, or that of a write fault where
/// that isn't all of the text.
fn put(answer: &Answer, text: &mut [u8], written: &mut usize) -> u8
    ensures fits { written.new ≤ length text.old }
    ensures put { IsPut answer.now.text.items (exit_number answer.now.status) text.old text.new written.new result }
{
    let from = answer.text.as_slice();
    let count = from.len().min(text.len());
    text[..count].copy_from_slice(&from[..count]);
    *written = count;
    if count < from.len() {
        Status::WriteFault as u8
    } else {
        answer.status as u8
    }
}
