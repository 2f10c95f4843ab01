// What holds of panels and desks, as the contracts of functions that do nothing.
ghost use Rattle.uac_status.specs.PanelLaws.{KnownValuesAreSo, PanelsBegin, MessagesTellAll};
ghost use Rattle.uac_status.specs.DeskLaws.{MessagesTellAllInLines, PanelHasOneTranscript, PanelLinesAgree};
ghost use Rattle.uac_status.specs.DeskPhrases.{DeskSaysOnce};

/// Each known value of which no message waits is the device's, at the start and after every list of events; and where no transfer breaks,
/// following the messages leaves none and makes every known value the device's.
pub fn known_values_are_so()
    ensures begin { PanelsBegin }
    ensures events { KnownValuesAreSo }
    ensures messages { MessagesTellAll }
{}

/// The table of lines gives a script one transcript. After each line of a script each known value of which no message waits is the
/// device's; and where `n` prints no line of a broken transfer, it leaves no message, and every known value is the device's.
pub fn panel_scripts_keep_promises()
    ensures one { PanelHasOneTranscript }
    ensures agreed { PanelLinesAgree }
    ensures told { MessagesTellAllInLines }
{}

/// Each text says one thing, by the table of lines and the two lines more alone.
#[tactic(auto, using(crate::proofs::DeskPhraseLemmas::desk_says_once))]
pub fn each_text_says_one_thing()
    ensures { DeskSaysOnce }
{}
