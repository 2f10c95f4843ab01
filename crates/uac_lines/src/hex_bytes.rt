// Bytes as words of HEX spell them.
ghost use Rattle.std.specs.Prelude.{◌≡◌, ◌≤◌, length, IfSome};
ghost use Rattle.std.specs.Option.{option_copied};
ghost use Rattle.uac_lines.specs.Words.{hex_of};
ghost use Rattle.uac_lines.specs.WordParsing.{setup_bytes_in};

use hex::FromHex;

/// The bytes that a word of HEX spells, in `room`: a positive even number of digits of either case.
pub fn bytes<'a>(word: &[u8], room: &'a mut [u8; 2048]) -> Option<&'a [u8]>
    requires { length word.now ≤ 4096 }
    ensures bytes { option_copied result ≡ hex_of word.now }
    ensures fits { IfSome result (λ bytes. length bytes.now ≤ 2048) }
{
    if word.is_empty() {
        return None;
    }
    let len = word.len() / 2;
    hex::decode_to_slice(word, &mut room[..len]).ok()?;
    Some(&room[..len])
}

/// The eight setup bytes of a control transfer, where the word spells eight.
pub fn setup(word: &[u8]) -> Option<[u8; 8]>
    ensures { result ≡ setup_bytes_in word.now }
{
    <[u8; 8]>::from_hex(word).ok()
}
