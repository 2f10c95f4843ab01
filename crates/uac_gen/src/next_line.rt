// What a script writes next.
ghost use Rattle.std.specs.Prelude.{◌<◌};

/// What was drawn for the group that is being written, and how many groups come after it.
#[derive(Clone, Copy, Drop)]
pub struct Group {
    /// How many times eight microframes lose their feedback.
    pub eights: u8,
    /// One microframe has no packet.
    pub lost: bool,
    pub following: u8,
    ghost few: { eights < 4 },
}

/// The next line.
#[derive(Clone, Copy, Drop)]
pub enum NextLine {
    /// The next bytes of the descriptor, after so many lines of them; or its end.
    Feed(u8),
    /// The clock's rate.
    Rate,
    /// The stream's setting.
    Setting,
    /// The tone of the stream's track.
    Tone,
    /// The first line of the next group, of so many; or the report.
    Deviation(u8),
    /// The microframes of a group that lose their feedback.
    FeedbackLosses(Group),
    /// The microframe of a group that has no packet.
    Unpacked(Group),
    /// The last line of a group.
    Rest(Group),
    /// None.
    End,
}
