// The laws of the grammar. These functions do nothing: their clauses are the laws.
ghost use Rattle.std.specs.Prelude.{◌≡◌, ℕ, ◌+◌, ◌↔◌, List, [], ◌∷◌, ◌++◌, length, Some, None};
ghost use Rattle.uac_descriptor.specs.declared.block.Block.{Block};
ghost use Rattle.uac_descriptor.specs.BlockParsing.{block_of};
ghost use Rattle.uac_descriptor.specs.WellFormed.{AreWellFormed};
ghost use Rattle.uac_grammar_rules.specs.declared.faults.GrammarFault.{GrammarFault};
ghost use Rattle.uac_grammar_rules.specs.declared.states.State.{State};
ghost use Rattle.uac_grammar_rules.specs.Cutting.{IsCut, chop};
ghost use Rattle.uac_grammar_rules.specs.Fault.{IsShown, faults_from};
ghost use Rattle.uac_grammar_rules.specs.FirstFault.{IsFault, IsFirstFault};
ghost use Rattle.uac_grammar_rules.specs.Grammar.{first_fault, grammar, rule_at_end, rule_broken, start, state_after};
ghost use Rattle.uac_grammar_rules.specs.Progress.{HasRead};
ghost use Rattle.uac_grammar_rules.specs.Sentence.{IsSentence, spellings};

/// Cutting loses nothing: the blocks and the rest are the bytes, each block has as many bytes as its first byte says,
/// and the rest begins with no whole block.
pub fn blocks_and_rest_are_the_bytes(bytes: &[u8])
    ensures { IsCut bytes.now (chop bytes.now) }
{}

/// There is no fault exactly where some blocks make a sentence of the bytes, and no other blocks do.
pub fn no_fault_is_a_sentence(bytes: &[u8])
    ensures exact { (first_fault bytes.now ≡ None) ↔ ((blocks : List Block) × IsSentence bytes.now blocks) }
    ensures unique { (one other : List Block) → IsSentence bytes.now one → IsSentence bytes.now other → one ≡ other }
{}

/// A shown fault is the first fault of every longer input that begins with these bytes.
pub fn shown_fault_stays(bytes: &[u8])
    ensures { (fault : GrammarFault) (more : List ℕ) → first_fault bytes.now ≡ Some fault → IsShown fault (length bytes.now)
        → first_fault (bytes.now ++ more) ≡ Some fault }
{}

/// A reader may forget the blocks that it has read: the state and the place that they left judge all that follows.
pub fn state_judges_what_follows(bytes: &[u8])
    ensures begins { HasRead [] start 0 }
    ensures goes_on { (blocks : List Block) (s : State) (place : ℕ) (b : Block) → HasRead blocks s place
        → block_of s.context bytes.now ≡ Some b → rule_broken s place (length bytes.now) b ≡ None
        → HasRead (blocks ++ b ∷ []) (state_after s place b) (place + length bytes.now) }
    ensures judges { (blocks : List Block) (s : State) (place : ℕ) → HasRead blocks s place
        → first_fault (spellings blocks ++ bytes.now) ≡ faults_from grammar s place bytes.now }
    ensures ends { (blocks : List Block) (s : State) (place : ℕ) → HasRead blocks s place → bytes.now ≡ spellings blocks
        → rule_at_end s place ≡ None → IsSentence bytes.now blocks }
{}

/// The first fault is what the blocks in front of a place and the bytes after it say: a rule is broken there, and each other
/// broken rule is broken after it, or is no lesser rule at its place. There is none exactly where no rule is broken anywhere.
pub fn first_fault_is_the_least_of_all(bytes: &[u8])
    ensures found { (fault : GrammarFault) → (first_fault bytes.now ≡ Some fault) ↔ IsFirstFault bytes.now fault }
    ensures none { (first_fault bytes.now ≡ None) ↔ ((rule place : ℕ) → IsFault bytes.now rule place → ⊥) }
{}

/// The blocks of a sentence are well-formed: the numbers of interfaces are bytes, what chooses or mixes has 1 to 248 pins, formats
/// and endpoints have numbers in range, the control interface comes first, and streaming interfaces and their settings are
/// numbered in turn.
pub fn sentences_are_well_formed()
    ensures { (bytes : List ℕ) (blocks : List Block) → IsSentence bytes blocks → AreWellFormed blocks }
{}
