// Numbers as words spell them.
ghost use Rattle.std.specs.Prelude.{◌≡◌, min, true, false, pos, negsuc, ◌≤ℤ◌, MatchOption};
ghost use Rattle.std.specs.Option.{option_map};
ghost use Rattle.std.specs.List.{list_all};
ghost use Rattle.std.specs.Char.{is_ascii_digit};
ghost use Rattle.uac_lines.specs.ScriptNumerals.{is_natural, natural_of, number_of, is_number, value_of, far, within_far};
ghost use Rattle.uac_lines.specs.Ranges.{is_within, is_id, is_in_32_bits};

/// Above the greatest number of every range: what a longer numeral spells is clamped to it.
const FAR: u64 = 1_000_000_000_000;

// Whether all of a word are decimal digits.
fn are_digits(word: &[u8]) -> bool
    ensures { result ≡ list_all is_ascii_digit word.now }
{
    word.iter().all(|digit| digit.is_ascii_digit())
}

// Whether a word is the numeral of a natural number: a 0 stands in front only where it stands alone.
#[tactic(auto, unfolding(crate::specs::ScriptNumerals::is_natural))]
fn is_natural(word: &[u8]) -> bool
    ensures { result ≡ is_natural word.now }
{
    if word.is_empty() || (word[0] == b'0' && word.len() > 1) {
        return false;
    }
    are_digits(word)
}

// The number that such a word spells, clamped at `FAR`.
#[tactic(auto, unfolding(crate::specs::ScriptNumerals::natural_of))]
fn natural(word: &[u8]) -> Option<u64>
    ensures { result ≡ option_map (λ n. min n far) (natural_of word.now) }
{
    if !is_natural(word) {
        return None;
    }
    let mut value = 0;
    for digit in word {
        value = (value * 10 + u64::from(*digit - b'0')).min(FAR);
    }
    Some(value)
}

/// The number that a word spells, clamped at `FAR` on either side of 0; none where it is no numeral.
#[tactic(auto, unfolding(crate::specs::ScriptNumerals::number_of))]
fn number(word: &[u8]) -> Option<i64>
    ensures { result ≡ option_map within_far (number_of word.now) }
{
    if word.is_empty() || word[0] != b'-' {
        return Some(natural(word)? as i64);
    }
    let size = natural(&word[1..])?;
    if size == 0 {
        return None;
    }
    Some(-(size as i64))
}

/// Whether a word is a numeral, of whatever length.
#[tactic(auto, unfolding(crate::specs::ScriptNumerals::is_number))]
pub fn is_number(word: &[u8]) -> bool
    ensures { result ≡ is_number word.now }
{
    number(word).is_some()
}

// The number that a numeral spells, clamped at `FAR` on either side of 0.
#[tactic(auto, unfolding(crate::specs::ScriptNumerals::value_of))]
fn value(word: &[u8]) -> i64
    ensures { result ≡ within_far (value_of word.now) }
{
    number(word).unwrap_or(0)
}

// Whether a number lies between these two, or is one of them.
fn lies_within(value: i64, least: i64, most: i64) -> bool
    ensures { result ≡ is_within least most value }
{
    least <= value && value <= most
}

/// The number that a numeral spells, where it is in this range. A word that is no numeral (`is_number`) counts as 0.
pub fn within(word: &[u8], least: i64, most: i64) -> Option<i64>
    requires low { (negsuc 4294967295) ≤ℤ least }
    requires high { most ≤ℤ (pos 4294967295) }
    ensures { MatchOption result (is_within least most (value_of word.now) ≡ false)
        (λ z. (is_within least most (value_of word.now) ≡ true) × (z ≡ value_of word.now)) }
{
    let value = value(word);
    if lies_within(value, least, most) {
        Some(value)
    } else {
        None
    }
}

/// The id that a numeral spells, where it is 0 to 255. A word that is no numeral (`is_number`) counts as 0.
pub fn id(word: &[u8]) -> Option<u8>
    ensures { MatchOption result (is_id (value_of word.now) ≡ false)
        (λ id. (is_id (value_of word.now) ≡ true) × (pos id ≡ value_of word.now)) }
{
    let id = within(word, 0, 255)?;
    Some(id as u8)
}

/// The number that a numeral spells, where it is a signed one of 32 bits. A word that is no numeral (`is_number`) counts as 0.
pub fn signed_number(word: &[u8]) -> Option<i32>
    ensures { MatchOption result (is_in_32_bits (value_of word.now) ≡ false)
        (λ z. (is_in_32_bits (value_of word.now) ≡ true) × (z ≡ value_of word.now)) }
{
    let number = within(word, i64::from(i32::MIN), i64::from(i32::MAX))?;
    Some(number as i32)
}
