// A line of the script, and reading one.
use crate::parsing::read;
use arrayvec::ArrayVec;
use uac_pcm::Tone;

/// The name of an element: any word of at least one byte and without a space.
pub type Name = ArrayVec<u8, 4096>;

/// Which of an interface's packets or reports is lost: the packet to the device (`o`), the packet from it (`i`), or the
/// report of the rate (`f`).
#[derive(Clone, Copy, Debug, Default, PartialEq, Eq)]
pub enum MarkKind {
    #[default]
    Out,
    In,
    Feedback,
}

/// A packet or a feedback report that is lost in each microframe of a line.
#[derive(Clone, Copy, Debug, Default, PartialEq, Eq)]
pub struct Mark {
    pub kind: MarkKind,
    pub interface: u8,
}

/// A line of the script.
#[derive(Debug, Drop, PartialEq, Eq)]
pub enum Line {
    /// An empty line, or one that begins with `#`.
    Nothing,
    /// The next bytes of the descriptor.
    Bytes(ArrayVec<u8, 2048>),
    /// The end of the descriptor.
    Go,
    /// A control transfer: the setup bytes, then the bytes sent.
    Control {
        setup: [u8; 8],
        sent: ArrayVec<u8, 2048>,
    },
    /// Reads an element from the device.
    Get(Name),
    /// Sets an element of the device.
    Set(Name, i32),
    /// Prints what the view holds of an element.
    Show(Name),
    /// The next transfer breaks, before or after the device acted.
    Break {
        after: bool,
    },
    /// Appends samples, frame after frame, to the track of a stream to the device.
    Append {
        interface: u8,
        samples: ArrayVec<i32, 2048>,
    },
    /// The tone of a track.
    Track {
        interface: u8,
        tone: Tone,
    },
    /// The tone of an input jack.
    Jack {
        terminal: u8,
        tone: Tone,
    },
    /// The deviation of a domain's clock from now on, in parts per million (-100,000 to 100,000).
    Deviate {
        domain: u8,
        ppm: i32,
    },
    /// Microframes (1 to 8,000), in each of which the marked packets and reports are lost.
    Run {
        count: u32,
        marks: ArrayVec<Mark, 24>,
    },
    /// How much is printed: 0, 1 or 2.
    Detail(u8),
    /// The report.
    Report,
}

impl Line {
    ghost use Rattle.std.specs.Prelude.{◌≡◌, ◌≤◌, length, IfOk, IfErr};
    ghost use Rattle.uac_script.specs.LineParsing.{phrase_result, answer};
    ghost use Rattle.uac_script.specs.Line.{Says, IsLineInRange};

    /// The line that a text of at most 4,096 bytes spells.
    ///
    /// # Errors
    ///
    /// The number of the first rule that the text breaks: 2 where its first word is none of the table's, 3 where its
    /// words aren't as in the table or a number is spelt otherwise, 4 where a number is out of its range.
    /// Tests alone call it: the program reads a `LentLine`.
    pub fn read(text: &[u8]) -> Result<Line, u8>
        requires { length text.now ≤ 4096 }
        // By the table of spellings alone; `laws::each_line_says_one_thing` tells that a text says one thing.
        ensures says { Says text.now (phrase_result result) }

        // What the text says as one function of it, for definitions that compute it.
        ensures answered { phrase_result result ≡ answer text.now }

        ensures keeps { IfOk result IsLineInRange }
        ensures no_other { IfErr result (λ rule. (2 ≤ rule) × (rule ≤ 4)) }
    {
        read(text)
    }
}
