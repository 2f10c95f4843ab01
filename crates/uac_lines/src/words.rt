// The words of a line, one after the other.
ghost use Rattle.std.specs.Prelude.{◌≡◌, ◌+◌, ◌≤◌, IfSome, [], ◌∷◌, length, List, ◌==◌, position, MatchBool, MatchOption};
ghost use Rattle.std.specs.Option.{option_copied};
ghost use Rattle.uac_lines.specs.Words.{Word, words_left, bytes_left, pair_now};
ghost use Rattle.uac_lines.specs.WordParsing.{only_of, pair_of};

/// The words of a line that are still to be read.
#[derive(Clone, Copy)]
pub struct Words<'a> {
    /// The text from the next word on, if there is a next word.
    pub rest: Option<&'a [u8]>,
}

// Where the first space stands.
fn next_space(text: &[u8]) -> Option<usize>
    ensures { result ≡ position (λ b. b == 32) text.now }
{
    text.iter().position(|b| *b == b' ')
}

impl<'a> Words<'a> {
    /// All the words of a text.
    pub fn new(text: &'a [u8]) -> Self
        ensures { result.rest ≡ Some text.entry }
    {
        Words { rest: Some(text) }
    }

    /// Whether no word is left.
    pub fn is_empty(self) -> bool
        ensures { MatchBool result (words_left self.entry.rest ≡ [])
            ((word : Word) × (words : List Word) × (words_left self.entry.rest ≡ word ∷ words)) }
    {
        self.rest.is_none()
    }

    /// The next word.
    pub fn take(&mut self) -> Option<&'a [u8]>
        ensures words { MatchOption result (words_left self.old.rest ≡ [])
            (λ word. words_left self.old.rest ≡ word.now ∷ words_left self.new.rest) }
        ensures room { MatchOption result (bytes_left self.old.rest ≡ 0)
            (λ word. bytes_left self.old.rest ≡ length word.now + 1 + bytes_left self.new.rest) }
    {
        let text = self.rest?;
        match next_space(text) {
            Some(end) => {
                self.rest = Some(&text[end + 1..]);
                Some(&text[..end])
            }
            None => {
                self.rest = None;
                Some(text)
            }
        }
    }

    /// The next word, if it is the last one.
    pub fn only(mut self) -> Option<&'a [u8]>
        ensures words { option_copied result ≡ only_of (words_left self.entry.rest) }
        ensures room { IfSome result (λ word. length word.now + 1 ≤ bytes_left self.entry.rest) }
    {
        let word = self.take()?;
        if self.is_empty() { Some(word) } else { None }
    }

    /// The next two words, if they are the last ones.
    pub fn pair(mut self) -> Option<(&'a [u8], &'a [u8])>
        ensures words { pair_now result ≡ pair_of (words_left self.entry.rest) }
        ensures room { IfSome result (λ words. (length words.0.now + 1 ≤ bytes_left self.entry.rest)
            × (length words.1.now + 1 ≤ bytes_left self.entry.rest)) }
    {
        let first = self.take()?;
        let second = self.only()?;
        Some((first, second))
    }
}
