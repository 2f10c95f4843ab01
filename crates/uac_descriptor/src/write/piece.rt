// Fields of more than one byte, and a block of varying length as it grows.
ghost use Rattle.std.specs.Prelude.{◌≡◌, ◌+◌, ◌*◌, ◌≤◌, ◌++◌, length, flat_map};
ghost use Rattle.arrayvec.specs.ArrayVec.{array_vec_len};
ghost use Rattle.uac_descriptor.specs.Little as little;

use arrayvec::ArrayVec;
use byteorder::{ByteOrder, LittleEndian};

/// The bytes of a block that isn't written yet: no block has more than 255.
pub(super) type Piece = ArrayVec<u8, 256>;

/// The two bytes of a field, low byte first.
pub(super) fn two(field: u16) -> [u8; 2]
    ensures { result ≡ little.two field }
{
    let mut bytes = [0; 2];
    LittleEndian::write_u16(&mut bytes, field);
    bytes
}

/// The four bytes of a field, low byte first.
pub(super) fn four(field: u32) -> [u8; 4]
    ensures { result ≡ little.four field }
{
    let mut bytes = [0; 4];
    LittleEndian::write_u32(&mut bytes, field);
    bytes
}

/// Appends bytes for which there is room.
pub(super) fn extend(piece: &mut Piece, bytes: &[u8])
    requires { array_vec_len piece.old + length bytes.now ≤ 256 }
    ensures items { piece.new.items ≡ piece.old.items ++ bytes.now }
    ensures len { array_vec_len piece.new ≡ array_vec_len piece.old + length bytes.now }
{
    let _ = piece.try_extend_from_slice(bytes);
}

/// Appends control words for which there is room.
pub(super) fn extend_words(piece: &mut Piece, words: &[u32])
    requires { array_vec_len piece.old + 4 * length words.now ≤ 256 }
    ensures items { piece.new.items ≡ piece.old.items ++ flat_map little.four words.now }
    ensures len { array_vec_len piece.new ≡ array_vec_len piece.old + 4 * length words.now }
{
    for word in words {
        extend(piece, &four(*word));
    }
}
