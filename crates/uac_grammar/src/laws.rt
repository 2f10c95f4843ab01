// Laws of the definitions that the reader's contracts cite. The functions do nothing: each contract is
// the law.
ghost use Rattle.std.specs.Prelude.{◌≡◌, ◌↔◌, ℕ, List, ◌++◌, length, flat_map, Some, None};
ghost use Rattle.uac_descriptor.specs.BlockParsing.{AreBytes};
ghost use Rattle.uac_descriptor.specs.Spelling.{spelling};
ghost use Rattle.uac_descriptor.specs.declared.block.Block.{Block};
ghost use Rattle.uac_grammar_rules.specs.Fault.{IsShown};
ghost use Rattle.uac_grammar_rules.specs.Grammar.{first_fault};
ghost use Rattle.uac_grammar_rules.specs.Sentence.{IsSentence};
ghost use Rattle.uac_grammar_rules.specs.declared.faults.GrammarFault.{GrammarFault};
ghost use Rattle.uac_grammar.specs.Stop.{shown_fault, first_stop, shown_stop};
ghost use Rattle.uac_grammar.specs.declared.fault.ReadStop.{ReadStop};

/// Bytes have no stop exactly where some blocks make a sentence of them.
pub fn no_stop_is_a_sentence()
    ensures { (bytes : List ℕ) → AreBytes bytes → (first_stop bytes ≡ None) ↔ ((blocks : List Block) × IsSentence bytes blocks) }
{}

/// The fault that bytes show is their first fault, where that is shown.
pub fn shown_fault_is_the_first()
    ensures { (bytes : List ℕ) (fault : GrammarFault)
        → (shown_fault bytes ≡ Some fault) ↔ ((first_fault bytes ≡ Some fault) × IsShown fault (length bytes)) }
{}

/// A stop that bytes show is the stop of every longer input that begins with them.
pub fn shown_stops_stay()
    ensures first { (bytes more : List ℕ) (stop : ReadStop) → shown_stop bytes ≡ Some stop → first_stop (bytes ++ more) ≡ Some stop }
    ensures shown { (bytes more : List ℕ) (stop : ReadStop) → shown_stop bytes ≡ Some stop → shown_stop (bytes ++ more) ≡ Some stop }
{}

/// The blocks of a sentence, written again, are its bytes; and blocks that make a sentence are read back
/// from what was written, since nothing stops a reader there and it finds no other blocks.
pub fn written_blocks_are_read_back()
    ensures written { (bytes : List ℕ) (blocks : List Block) → IsSentence bytes blocks → flat_map spelling blocks ≡ bytes }
    ensures accepted { (blocks : List Block) → IsSentence (flat_map spelling blocks) blocks
        → first_stop (flat_map spelling blocks) ≡ None }
    ensures same { (blocks read : List Block) → IsSentence (flat_map spelling blocks) blocks → IsSentence (flat_map spelling blocks) read
        → read ≡ blocks }
{}
