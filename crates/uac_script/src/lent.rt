// A line whose long parts lie elsewhere, and the room for them.
use crate::line::{Line, Mark};
use crate::parsing::read_into;
use arrayvec::ArrayVec;
use uac_pcm::Tone;

/// Room for the long parts of one line: it is made once, and each line that is read uses it anew.
#[derive(Drop)]
pub struct LineRoom {
    pub(crate) bytes: [u8; 2048],
    pub(crate) samples: ArrayVec<i32, 2048>,
    pub(crate) marks: ArrayVec<Mark, 24>,
}

/// A line of the script, as `Line`, whose names lie in the text that spells it and whose other long parts in a `LineRoom`, or all of
/// them in a `Line`. It is small, so that it travels at no cost.
#[derive(Clone, Copy, Debug)]
pub enum LentLine<'a> {
    /// An empty line, or one that begins with `#`.
    Nothing,
    /// The next bytes of the descriptor, at most 2,048.
    Bytes(&'a [u8]),
    /// The end of the descriptor.
    Go,
    /// A control transfer: the setup bytes, then the bytes sent, at most 2,048.
    Control { setup: [u8; 8], sent: &'a [u8] },
    /// Reads an element from the device.
    Get(&'a [u8]),
    /// Sets an element of the device.
    Set(&'a [u8], i32),
    /// Prints what the view holds of an element.
    Show(&'a [u8]),
    /// The next transfer breaks, before or after the device acted.
    Break { after: bool },
    /// Appends samples, frame after frame, at most 2,048, to the track of a stream to the device.
    Append { interface: u8, samples: &'a [i32] },
    /// The tone of a track.
    Track { interface: u8, tone: Tone },
    /// The tone of an input jack.
    Jack { terminal: u8, tone: Tone },
    /// The deviation of a domain's clock from now on, in parts per million (-100,000 to 100,000).
    Deviate { domain: u8, ppm: i32 },
    /// Microframes (1 to 8,000), in each of which the marked packets and reports, at most 24, are lost.
    Run { count: u32, marks: &'a [Mark] },
    /// How much is printed: 0, 1 or 2.
    Detail(u8),
    /// The report.
    Report,
}

impl LineRoom {
    /// Room in which no line was read.
    pub fn new() -> LineRoom {
        LineRoom {
            bytes: [0; 2048],
            samples: ArrayVec::new(),
            marks: ArrayVec::new(),
        }
    }
}

impl<'a> LentLine<'a> {
    ghost use Rattle.std.specs.Prelude.{◌≡◌, ◌≤◌, length, IfOk, IfErr};
    ghost use Rattle.uac_script.specs.LineParsing.{answer};
    ghost use Rattle.uac_script.specs.Lent.{lent_phrase_result, IsLentInRange};

    /// The line that a text of at most 4,096 bytes spells, as `Line::read` reads it. `room` holds its long parts, but for a name.
    ///
    /// # Errors
    ///
    /// The rules of `Line::read`.
    pub fn read(text: &'a [u8], room: &'a mut LineRoom) -> Result<LentLine<'a>, u8>
        requires { length text.now ≤ 4096 }
        ensures answered { lent_phrase_result result ≡ answer text.now }
        ensures keeps { IfOk result IsLentInRange }
        ensures no_other { IfErr result (λ rule. (2 ≤ rule) × (rule ≤ 4)) }
    {
        read_into(text, room)
    }
}

impl Line {
    ghost use Rattle.std.specs.Prelude.{◌≡◌};
    ghost use Rattle.uac_script.specs.Line.{phrase_of};
    ghost use Rattle.uac_script.specs.Lent.{lent_phrase};

    /// Lends the line, which says the same.
    pub fn lend(&self) -> LentLine<'_>
        ensures { lent_phrase result ≡ phrase_of self.now }
    {
        match self {
            Line::Nothing => LentLine::Nothing,
            Line::Bytes(bytes) => LentLine::Bytes(bytes.as_slice()),
            Line::Go => LentLine::Go,
            Line::Control { setup, sent } => LentLine::Control {
                setup: *setup,
                sent: sent.as_slice(),
            },
            Line::Get(name) => LentLine::Get(name.as_slice()),
            Line::Set(name, value) => LentLine::Set(name.as_slice(), *value),
            Line::Show(name) => LentLine::Show(name.as_slice()),
            Line::Break { after } => LentLine::Break { after: *after },
            Line::Append { interface, samples } => LentLine::Append {
                interface: *interface,
                samples: samples.as_slice(),
            },
            Line::Track { interface, tone } => LentLine::Track {
                interface: *interface,
                tone: *tone,
            },
            Line::Jack { terminal, tone } => LentLine::Jack {
                terminal: *terminal,
                tone: *tone,
            },
            Line::Deviate { domain, ppm } => LentLine::Deviate {
                domain: *domain,
                ppm: *ppm,
            },
            Line::Run { count, marks } => LentLine::Run {
                count: *count,
                marks: marks.as_slice(),
            },
            Line::Detail(level) => LentLine::Detail(*level),
            Line::Report => LentLine::Report,
        }
    }
}
