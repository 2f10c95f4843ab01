// What the bytes of printed lines tell, whatever a program prints.
ghost use Rattle.std.specs.Prelude.{◌≡◌, ◌++◌, ℕ, List, Option, codes};
ghost use Rattle.std.specs.List.{All};
ghost use Rattle.uac_transcript.specs.Spellings.{HasPlainName, IsInRange, IsOneLine, IsReadBack, SaysLevel, SaysOver, SaysUnder};
ghost use Rattle.uac_transcript.specs.Transcript.{Said, says_level, says_over, says_under, spelling_of};

/// The spelling of a line ends with a newline and has none before, where none stands in the name of an element that the line tells.
pub fn newlines_end_lines()
    ensures { (said : Said) → HasPlainName said → IsOneLine (spelling_of said) }
{}

/// A spelling that begins with `under `, with `over ` or with `l ` is that of a line that tells of a ring found empty, of one found full, or of a
/// level.
pub fn beginnings_tell_kinds()
    ensures under { (said : Said) (rest : List ℕ) → spelling_of said ≡ codes "under " ++ rest → SaysUnder said }
    ensures over { (said : Said) (rest : List ℕ) → spelling_of said ≡ codes "over " ++ rest → SaysOver said }
    ensures level { (said : Said) (rest : List ℕ) → spelling_of said ≡ codes "l " ++ rest → SaysLevel said }
{}

/// Such a line is told by its spelling: of all lines whose numbers have 64 bits none but that very line, with its numbers, has it.
pub fn rings_lines_are_told()
    ensures under { (said : Said) (interface : ℕ) → IsInRange said → IsInRange (says_under interface)
        → spelling_of said ≡ spelling_of (says_under interface) → said ≡ says_under interface }
    ensures over { (said : Said) (interface : ℕ) → IsInRange said → IsInRange (says_over interface)
        → spelling_of said ≡ spelling_of (says_over interface) → said ≡ says_over interface }
    ensures level { (said : Said) (interface level : ℕ) (target : Option ℕ) → IsInRange said → IsInRange (says_level interface level target)
        → spelling_of said ≡ spelling_of (says_level interface level target) → said ≡ says_level interface level target }
{}

/// So lines are what their text is, cut at its newlines, in one way alone; and what it has of lines that begin so is what was printed of them.
pub fn texts_have_their_lines()
    ensures { (saids : List Said) → All HasPlainName saids → IsReadBack saids }
{}
