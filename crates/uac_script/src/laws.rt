// Laws of the script's lines, as the contracts of functions that do nothing.
ghost use Rattle.std.specs.Prelude.{◌≡◌};
ghost use Rattle.uac_script.specs.Saying.{SaysOnce, EachSaysOnce};
ghost use Rattle.uac_script.specs.Line.{phrase_of};
ghost use Rattle.uac_script.specs.declared.line.Line.{Line};

/// Each text says one line, or one of rules S2 to S4, by the table of spellings; and so do lists of
/// texts. So what the words of a definition compute is what the table says.
pub fn each_line_says_one_thing()
    ensures once { SaysOnce }
    ensures each { EachSaysOnce }
{}

/// Two values of `Line` that stand for one line are the same.
#[tactic(auto, using(crate::proofs::LineUniqueLemmas::same_line))]
pub fn a_line_has_one_value()
    ensures { (a b : Line) → phrase_of a ≡ phrase_of b → a ≡ b }
{}
