// The lines' texts.
ghost use Rattle.std.specs.Prelude.{◌≡◌, ◌+◌, ◌*◌, ◌<◌, ◌≤◌, ◌-ℤ◌, length, pos};
ghost use Rattle.uac_gen.specs.Generator.{feed_line, rate_line, tone_line, deviation_line, run_line};

use uac_edges::TextLine;

/// A line of the script, without its newline.
pub type LineText = TextLine<160>;

/// A line that is the same in every script.
pub fn fixed_line(text: &[u8]) -> LineText
    requires { length text.now ≤ 160 }
    ensures { result ≡ text.now }
{
    let mut line = TextLine::new();
    line.push(text);
    line
}

/// Bytes of the descriptor, after so many lines of 64 bytes.
pub fn feed_line(bytes: &[u8], fed: usize) -> LineText
    requires { 64 * fed < length bytes.now }
    ensures { result ≡ feed_line bytes.now fed }
{
    let start = 64 * fed;
    let size = (bytes.len() - start).min(64);
    let mut line = TextLine::new();
    line.push(b"d ");
    line.push_hex(&bytes[start..start + size]);
    line
}

/// Sets the clock's rate.
pub fn rate_line(hertz: u32) -> LineText
    ensures { result ≡ rate_line hertz }
{
    let mut line = TextLine::new();
    line.push(b"c 2101000100010400 ");
    line.push_hex(&hertz.to_le_bytes());
    line
}

/// The tone of the track.
pub fn tone_line(number: u32) -> LineText
    ensures { result ≡ tone_line number }
{
    let mut line = TextLine::new();
    line.push(b"t 1 noise ");
    line.push_number(u64::from(number));
    line
}

/// The clock's deviation, of which 1000 more was drawn.
pub fn deviation_line(drawn: u32) -> LineText
    requires { drawn ≤ 2000 }
    ensures { result ≡ deviation_line drawn }
{
    let mut line = TextLine::new();
    line.push(b"k 1 ");
    line.push_signed(deviation(drawn));
    line
}

// The deviation that was drawn.
fn deviation(drawn: u32) -> i32
    requires { drawn ≤ 2000 }
    ensures { result ≡ pos drawn -ℤ pos 1000 }
{
    drawn as i32 - 1000
}

/// The line that asks for so many microframes, with a mark or with none.
pub fn run_line(count: u64, mark: &[u8]) -> LineText
    requires { length mark.now ≤ 3 }
    ensures { result ≡ run_line count mark.now }
{
    let mut line = TextLine::new();
    line.push(b"m ");
    line.push_number(count);
    line.push(mark);
    line
}
