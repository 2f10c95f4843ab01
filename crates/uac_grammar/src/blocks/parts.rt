// Fields of more than one byte, and lists.
ghost use Rattle.std.specs.Prelude.{◌≡◌, ◌+◌, ◌*◌, ◌≤◌, length, IfOk};
ghost use Rattle.uac_descriptor.specs.Little.{two_at, four_at};
ghost use Rattle.uac_descriptor.specs.BlockParsing.{words_in};

use byteorder::{ByteOrder, LittleEndian};
use std::alloc::Global;
use uac_descriptor::{NoMemory, WordList};

/// The field in the two bytes from place `i`.
#[tactic(auto, using(crate::proofs::LittleLemmas::little_two))]
pub(super) fn two_at(bytes: &[u8], i: usize) -> u16
    requires { i + 2 ≤ length bytes.now }
    ensures { result ≡ two_at bytes.now i }
{
    LittleEndian::read_u16(&bytes[i..])
}

/// The field in the four bytes from place `i`.
#[tactic(auto, using(crate::proofs::LittleLemmas::little_four))]
pub(super) fn four_at(bytes: &[u8], i: usize) -> u32
    requires { i + 4 ≤ length bytes.now }
    ensures { result ≡ four_at bytes.now i }
{
    LittleEndian::read_u32(&bytes[i..])
}

/// The first `count` control words in these bytes.
#[tactic(auto, using(crate::proofs::LittleLemmas::words_push))]
pub(super) fn control_words_of(
    alloc: Global,
    bytes: &[u8],
    count: usize,
) -> Result<WordList, NoMemory>
    requires { 4 * count ≤ length bytes.now }
    ensures { IfOk result (λ words. words ≡ words_in count bytes.now) }
{
    let mut words = Vec::new(alloc);
    for i in 0..count {
        words.push(four_at(bytes, 4 * i))?;
    }
    Ok(WordList::from_vec(words))
}
