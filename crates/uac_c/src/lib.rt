//! The program's commands for C: bytes in memory in, text in memory out.
//!
//! Each function does what the program does with the words that its clause names, over an input in memory. It writes the text to the
//! front of `text`, its length to `written`, and returns the number of its status.
#![tactic(auto)]

ghost use Rattle.std.specs.Prelude.{◌≡◌, ◌≤◌, [], ◌∷◌, ◌++◌, length, codes, decimal};
ghost use Rattle.uac_c.specs.Telling.{IsTold, rack_words};

/// All of a text, kept in memory.
mod kept;
/// From words and an input to the caller's room.
mod telling;

use crate::telling::tell;
use itoa::Buffer;
use std::alloc::Global;

/// Whether a descriptor is sound, and if not, which rule it breaks first.
#[unsafe(no_mangle)]
pub extern "C" fn uac_check(alloc: Global, bytes: &[u8], text: &mut [u8], written: &mut usize) -> u8
    ensures fits { written.new ≤ length text.old }
    ensures told { IsTold (codes "check" ∷ []) bytes.now text.old text.new written.new result }
{
    tell(alloc, &["check"], bytes, text, written)
}

/// The blocks, the entities and the settings of a sound descriptor.
#[unsafe(no_mangle)]
pub extern "C" fn uac_show(alloc: Global, bytes: &[u8], text: &mut [u8], written: &mut usize) -> u8
    ensures fits { written.new ≤ length text.old }
    ensures told { IsTold (codes "show" ∷ []) bytes.now text.old text.new written.new result }
{
    tell(alloc, &["show"], bytes, text, written)
}

/// What a host's mixer shows of a fresh device.
#[unsafe(no_mangle)]
pub extern "C" fn uac_elements(
    alloc: Global,
    bytes: &[u8],
    text: &mut [u8],
    written: &mut usize,
) -> u8
    ensures fits { written.new ≤ length text.old }
    ensures told { IsTold (codes "elements" ∷ []) bytes.now text.old text.new written.new result }
{
    tell(alloc, &["elements"], bytes, text, written)
}

/// Does the lines of a script, to its end or to the first that is refused, with the units of a rack.
#[unsafe(no_mangle)]
pub extern "C" fn uac_run(
    alloc: Global,
    script: &[u8],
    lanes: bool,
    text: &mut [u8],
    written: &mut usize,
) -> u8
    ensures fits { written.new ≤ length text.old }
    ensures told { IsTold (codes "run" ∷ rack_words lanes) script.now text.old text.new written.new result }
{
    tell(
        alloc,
        &["run", "--rack", rack_name(lanes)],
        script,
        text,
        written,
    )
}

/// Does the lines of the script that is made from a number, with the units of a rack.
#[unsafe(no_mangle)]
pub extern "C" fn uac_gen(
    alloc: Global,
    number: u32,
    lanes: bool,
    text: &mut [u8],
    written: &mut usize,
) -> u8
    ensures fits { written.new ≤ length text.old }
    ensures told { IsTold (codes "gen" ∷ decimal number ∷ rack_words lanes) [] text.old text.new written.new result }
{
    let mut digits = Buffer::new();
    tell(
        alloc,
        &["gen", digits.format(number), "--rack", rack_name(lanes)],
        &[],
        text,
        written,
    )
}

/// Does the lines of a script on one full-speed stream of this rate in Hz.
#[unsafe(no_mangle)]
pub extern "C" fn uac_full(
    alloc: Global,
    rate: u32,
    script: &[u8],
    text: &mut [u8],
    written: &mut usize,
) -> u8
    ensures fits { written.new ≤ length text.old }
    ensures told { IsTold (codes "full" ∷ decimal rate ∷ []) script.now text.old text.new written.new result }
{
    let mut digits = Buffer::new();
    tell(alloc, &["full", digits.format(rate)], script, text, written)
}

/// Does the lines of a script on a pair of streams of this rate in Hz, of which the host follows one by the other.
#[unsafe(no_mangle)]
pub extern "C" fn uac_pair(
    alloc: Global,
    rate: u32,
    script: &[u8],
    text: &mut [u8],
    written: &mut usize,
) -> u8
    ensures fits { written.new ≤ length text.old }
    ensures told { IsTold (codes "pair" ∷ decimal rate ∷ []) script.now text.old text.new written.new result }
{
    let mut digits = Buffer::new();
    tell(alloc, &["pair", digits.format(rate)], script, text, written)
}

/// How long a stream takes to come home after a lost packet, at each rate.
#[unsafe(no_mangle)]
pub extern "C" fn uac_settle(alloc: Global, text: &mut [u8], written: &mut usize) -> u8
    ensures fits { written.new ≤ length text.old }
    ensures told { IsTold (codes "settle" ∷ []) [] text.old text.new written.new result }
{
    tell(alloc, &["settle"], &[], text, written)
}

/// Does the lines of a script on a front panel: knobs on a device, and a host that hears of them.
#[unsafe(no_mangle)]
pub extern "C" fn uac_panel(
    alloc: Global,
    script: &[u8],
    text: &mut [u8],
    written: &mut usize,
) -> u8
    ensures fits { written.new ≤ length text.old }
    ensures told { IsTold (codes "panel" ∷ []) script.now text.old text.new written.new result }
{
    tell(alloc, &["panel"], script, text, written)
}

/// The name of the rack of lanes, or of the plain one.
fn rack_name(lanes: bool) -> &'static str
    ensures { codes "--rack" ∷ result.now ∷ [] ≡ rack_words lanes }
{
    if lanes { "lanes" } else { "plain" }
}

#[cfg(test)]
mod tests;
