// The lines of frames.
ghost use Rattle.std.specs.Prelude.{◌≡◌, ◌+◌, ◌*◌, ◌≤◌, [], ◌∷◌, ◌++◌, length, codes};
ghost use Rattle.uac_edges.specs.Faults.{HasCause};
ghost use Rattle.uac_edges.specs.Numerals.{numeral};
ghost use Rattle.uac_edges.specs.Writing.{Writes};
ghost use Rattle.uac_transcript.specs.Transcript.{frame_text, samples_text, says_frame, says_played, spelling_of};

use uac_edges::{Failed, Sink, TextLine, give_all};
use uac_pcm::Frame;

/// Prints the frame that an output jack played in a tick.
#[tactic(auto, unfolding(crate::specs::Transcript::spelling_of))]
pub fn write_played<K: Sink>(sink: &mut K, terminal: u8, frame: &Frame) -> Result<(), Failed>
    ensures written { Writes (K.written sink.old) (K.written sink.new) result (spelling_of (says_played terminal frame.now.items)) }
    ensures cause { HasCause (K.faults sink.old) (K.faults sink.new) result }
{
    write_samples(sink, b'p', terminal, frame)
}

/// Appends the line of the frame that an output jack played in a tick, for which there has to be room.
#[tactic(auto, unfolding(crate::specs::Transcript::spelling_of))]
#[inline]
pub fn push_played<const N: usize>(text: &mut TextLine<N>, terminal: u8, frame: &Frame)
    requires { length text.old + 727 ≤ N }
    ensures text { text.new ≡ text.old ++ spelling_of (says_played terminal frame.now.items) }
    ensures len { length text.new ≤ length text.old + 727 }
{
    push_frame(text, b'p', terminal, frame.as_slice());
}

/// Prints a frame that came from an interface.
#[tactic(auto, unfolding(crate::specs::Transcript::spelling_of))]
pub fn write_frame<K: Sink>(sink: &mut K, interface: u8, frame: &Frame) -> Result<(), Failed>
    ensures written { Writes (K.written sink.old) (K.written sink.new) result (spelling_of (says_frame interface frame.now.items)) }
    ensures cause { HasCause (K.faults sink.old) (K.faults sink.new) result }
{
    write_samples(sink, b'r', interface, frame)
}

/// Prints the line of a frame, of which `start` tells the kind. A frame of few samples has a short buffer.
fn write_samples<K: Sink>(sink: &mut K, start: u8, number: u8, frame: &Frame) -> Result<(), Failed>
    ensures written { Writes (K.written sink.old) (K.written sink.new) result (frame_text (start ∷ codes " ") number frame.now.items) }
    ensures cause { HasCause (K.faults sink.old) (K.faults sink.new) result }
{
    let samples = frame.as_slice();
    if samples.len() > 4 {
        return write_many(sink, start, number, samples);
    }
    let mut text: TextLine<112> = TextLine::new();
    push_frame(&mut text, start, number, samples);
    give_all(sink, text.as_bytes())
}

/// Prints the line of a frame of up to 32 samples.
#[inline(never)]
fn write_many<K: Sink>(sink: &mut K, start: u8, number: u8, samples: &[i32]) -> Result<(), Failed>
    requires { length samples.now ≤ 32 }
    ensures written { Writes (K.written sink.old) (K.written sink.new) result (frame_text (start ∷ codes " ") number samples.now) }
    ensures cause { HasCause (K.faults sink.old) (K.faults sink.new) result }
{
    let mut text: TextLine<768> = TextLine::new();
    push_frame(&mut text, start, number, samples);
    give_all(sink, text.as_bytes())
}

#[inline]
fn push_frame<const N: usize>(text: &mut TextLine<N>, start: u8, number: u8, samples: &[i32])
    requires { length text.old + 23 + 22 * length samples.now ≤ N }
    ensures text { text.new ≡ text.old ++ frame_text (start ∷ codes " ") number samples.now }
    ensures len { length text.new ≤ length text.old + 23 + 22 * length samples.now }
{
    text.push_byte(start);
    text.push_byte(b' ');
    text.push_number(u64::from(number));
    push_samples(text, samples);
    text.push_byte(b'\n');
}

/// Appends a space and a sample, for each.
#[inline]
fn push_samples<const N: usize>(text: &mut TextLine<N>, samples: &[i32])
    requires { length text.old + 22 * length samples.now ≤ N }
    ensures text { text.new ≡ text.old ++ samples_text samples.now }
    ensures len { length text.new ≤ length text.old + 22 * length samples.now }
{
    for sample in samples {
        push_sample(text, *sample);
    }
}

/// Appends a space and a sample, which most often is 0.
#[inline]
fn push_sample<const N: usize>(text: &mut TextLine<N>, sample: i32)
    requires { length text.old + 22 ≤ N }
    ensures text { text.new ≡ text.old ++ codes " " ++ numeral sample }
    ensures len { length text.new ≤ length text.old + 22 }
{
    if sample == 0 {
        text.push(b" 0");
    } else {
        text.push_byte(b' ');
        text.push_signed(sample);
    }
}
