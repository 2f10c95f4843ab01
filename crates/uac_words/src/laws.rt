// Laws of the words, each the contract of a function that does nothing.
ghost use Rattle.uac_words.specs.CommandLines.{LinesAsk, NothingElseAsks, RulesAskTheSame};

/// What is said of the words one after the other is said of whole command lines: a command with its NUMBER or RATE, over a rack that is
/// chosen at most once, and at most one `--` after that choice.
pub fn command_lines_alone_ask()
    ensures lines { LinesAsk }
    ensures nothing_else { NothingElseAsks }
{}

/// By the rules of the simple command that reads them, words ask for what is said of them one after the other.
pub fn rules_ask_the_same()
    ensures { RulesAskTheSame }
{}
