// Values as the bytes of controls (Audio Class 2.0, 5.2.3.1 to 5.2.3.3).
ghost use Rattle.std.specs.Prelude.{◌≡◌, ◌≤◌, ◌<◌, ◌+◌, ◌^◌, ◌++◌, length};
ghost use Rattle.std.specs.Int.{w32};
ghost use Rattle.std.specs.Int.RustNames.{FitsSigned};
ghost use Rattle.arrayvec.specs.ArrayVec.{array_vec_len};
ghost use Rattle.byteorder.specs.Endian.{little_bytes, little_number};
ghost use Rattle.uac_request.specs.Requests as spec;
ghost use Rattle.uac_request.specs.Requests.{value_bytes};

use crate::reply::Reply;
use arrayvec::ArrayVec;
use byteorder::{ByteOrder, LittleEndian};

/// The bytes of a control's value, at most six.
pub type ControlBytes = ArrayVec<u8, 6>;

/// A value in so many bytes, the lowest first, in two's complement where it is negative.
#[tactic(auto, unfolding(crate::specs::Requests::value_bytes))]
pub fn value_bytes(width: u8, value: i32) -> ControlBytes
    requires { width ≤ 6 }
    ensures bytes { result.items ≡ value_bytes width value }
    ensures len { array_vec_len result ≡ width }
{
    number_bytes(width, complement(width, value))
}

// The lowest bytes of a number, as many as are asked for, the lowest first.
#[tactic(auto, using(crate::proofs::EndianLemmas::first_bytes))]
fn number_bytes(width: u8, number: u64) -> ControlBytes
    requires { width ≤ 6 }
    ensures bytes { result.items ≡ little_bytes width number }
    ensures len { array_vec_len result ≡ width }
{
    let mut whole = [0; 8];
    LittleEndian::write_u64(&mut whole, number);
    let mut bytes = ArrayVec::new();
    match bytes.try_extend_from_slice(&whole[..usize::from(width)]) {
        Ok(()) => bytes,
        Err(_) => unreachable!(),
    }
}

/// Adds a value in so many bytes to a reply.
pub(crate) fn push_value(reply: &mut Reply, width: u8, value: i32)
    requires narrow { width ≤ 6 }
    requires room { array_vec_len reply.old + width ≤ 146 }
    ensures bytes { reply.new.items ≡ reply.old.items ++ value_bytes width value }
    ensures len { array_vec_len reply.new ≡ array_vec_len reply.old + width }
{
    push_all(reply, &value_bytes(width, value));
}

/// Adds so many bytes of a number to a reply, the lowest first.
pub(crate) fn push_number(reply: &mut Reply, width: u8, number: u64)
    requires narrow { width ≤ 6 }
    requires room { array_vec_len reply.old + width ≤ 146 }
    ensures bytes { reply.new.items ≡ reply.old.items ++ little_bytes width number }
    ensures len { array_vec_len reply.new ≡ array_vec_len reply.old + width }
{
    push_all(reply, &number_bytes(width, number));
}

// Adds bytes, for which there is room, to a reply.
fn push_all(reply: &mut Reply, bytes: &ControlBytes)
    requires { array_vec_len reply.old + array_vec_len bytes.now ≤ 146 }
    ensures bytes { reply.new.items ≡ reply.old.items ++ bytes.now.items }
    ensures len { array_vec_len reply.new ≡ array_vec_len reply.old + array_vec_len bytes.now }
{
    match reply.try_extend_from_slice(bytes.as_slice()) {
        Ok(()) => {}
        Err(_) => unreachable!(),
    }
}

// The number that a value is in so many bytes.
fn complement(width: u8, value: i32) -> u64
    requires { width ≤ 6 }
    ensures { result ≡ spec.complement width value }
{
    match u64::try_from(value) {
        Ok(number) => number,
        Err(_) => (numbers(width) - 1).saturating_sub((-1 - i64::from(value)) as u64),
    }
}

// How many numbers so many bytes have.
fn numbers(width: u8) -> u64
    requires { width ≤ 6 }
    ensures value { result ≡ 256 ^ width }
    ensures some { 1 ≤ result }
    ensures most { result ≤ 2 ^ 48 }
    ensures two { width ≤ 2 → result ≤ 65536 }
{
    match width {
        0 => 1,
        1 => 1 << 8,
        2 => 1 << 16,
        3 => 1 << 24,
        4 => 1 << 32,
        5 => 1 << 40,
        _ => 1 << 48,
    }
}

/// The value that at most four bytes are, the lowest first; a signed one in two's complement.
#[tactic(auto, unfolding(crate::specs::Requests::value_from))]
pub fn value_from(signed: bool, bytes: &[u8]) -> i64
    requires { length bytes.now ≤ 4 }
    ensures value { result ≡ spec.value_from signed bytes.now }
    ensures short { length bytes.now ≤ 2 → FitsSigned w32 result }
{
    let numbers = numbers(bytes.len() as u8);
    let number = number_from(bytes);
    if signed && number >= numbers / 2 {
        -1 - (numbers - 1).saturating_sub(number) as i64
    } else {
        number as i64
    }
}

// The number that at most four bytes are, the lowest first.
fn number_from(bytes: &[u8]) -> u64
    requires { length bytes.now ≤ 4 }
    ensures value { result ≡ little_number (length bytes.now) bytes.now }
    ensures most { result < 256 ^ length bytes.now }
    ensures four { result < 2 ^ 32 }
{
    match bytes.len() {
        0 => 0,
        1 => u64::from(bytes[0]),
        2 => u64::from(LittleEndian::read_u16(bytes)),
        3 => u64::from(LittleEndian::read_u24(bytes)),
        _ => u64::from(LittleEndian::read_u32(bytes)),
    }
}
