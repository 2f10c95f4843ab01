// The rules that a line's words break, by name (profile).
ghost use Rattle.std.specs.Prelude.{◌≡◌};
ghost use Rattle.uac_script.specs.LineRules.{rule_number};

/// A rule that a line's words break, named for what breaks it.
#[derive(Clone, Copy)]
pub enum LineRule {
    /// S2: no row has this first word.
    Unknown,
    /// S3: the words aren't as in the table.
    Misspelt,
    /// S4: a number is out of range.
    OutOfRange,
}

impl LineRule {
    /// 2 to 4.
    pub fn number(self) -> u8
        ensures { result ≡ rule_number self }
    {
        match self {
            LineRule::Unknown => 2,
            LineRule::Misspelt => 3,
            LineRule::OutOfRange => 4,
        }
    }
}
