// The script, one line after the other.
ghost use Rattle.std.specs.Prelude.{◌≡◌, ℕ, ◌≤◌, [], ◌∷◌, length, MatchOption, MatchBool};
ghost use Rattle.uac_gen.specs.Generator.{generated_lines};
ghost use Rattle.uac_gen.specs.Left.{lines_left};

use crate::descriptor::{Bytes, descriptor};
use crate::draws::Draws;
use crate::groups::{next_after_feedback_losses, next_group, rest_line};
use crate::lines::{LineText, feed_line, fixed_line, rate_line, run_line, tone_line};
use crate::next_line::NextLine;
use arrayvec::ArrayVec;
use std::marker::Model;
use uac_clock::RATES;

/// The script that a number generates: a device of one stream and up to 30 units, which runs for
/// 8,000 microframes while its clock deviates and packets and reports are lost. It takes no memory.
#[derive(Drop)]
pub struct Gen {
    number: u32,
    rate: u32,
    descriptor: Bytes,
    draws: Draws,
    next_line: NextLine,
}

impl Model for Gen {
    ghost use Rattle.std.specs.Prelude.{ℕ, List};
    ghost use Rattle.uac_gen.specs.Left.{lines_left};

    // The lines that are left.
    ghost Value = { List (List ℕ) };

    ghost view = { λ g. lines_left g.number g.rate g.descriptor g.draws.x g.next_line };
}

impl Gen {
    /// The script of this number, with all its lines left.
    pub fn new(number: u32) -> Gen
        ensures { result ≡ generated_lines number }
    {
        let mut draws = Draws { x: number };
        let rate = RATES[draws.draw(12) as usize];
        let count = 1 + draws.draw(30) as u8;
        Gen {
            number,
            rate,
            descriptor: descriptor(count),
            draws,
            next_line: NextLine::Feed(0),
        }
    }

    /// Writes the next line in place of the text, without its newline. False exactly after the last
    /// line: then the text stays as it was.
    pub fn next(&mut self, text: &mut ArrayVec<u8, 4096>) -> bool
        ensures { MatchBool result (self.old ≡ text.new.items ∷ self.new)
            ((self.old ≡ []) × (self.new ≡ []) × (text.new ≡ text.old)) }
    {
        let bytes = self.descriptor.as_bytes();
        let step = step(
            self.number,
            self.rate,
            bytes,
            &mut self.draws,
            self.next_line,
        );
        let Some((line, next_line)) = step else {
            return false;
        };
        self.next_line = next_line;
        text.clear();
        match text.try_extend_from_slice(line.as_bytes()) {
            Ok(()) => true,
            Err(_) => unreachable!(),
        }
    }
}

// The line that is next, and which is next after it; None after the last.
fn step(
    number: u32,
    rate: u32,
    bytes: &[u8],
    draws: &mut Draws,
    next_line: NextLine,
) -> Option<(LineText, NextLine)>
    requires { length bytes.now ≤ 1024 }
    ensures { MatchOption result
        ((lines_left number rate bytes.now draws.old.x next_line ≡ []) × (draws.new ≡ draws.old))
        (λ next. lines_left number rate bytes.now draws.old.x next_line ≡ next.0 ∷ lines_left number rate bytes.now draws.new.x next.1) }
{
    match next_line {
        NextLine::Feed(fed) => Some(feed(bytes, fed)),
        NextLine::Rate => Some((rate_line(rate), NextLine::Setting)),
        NextLine::Setting => Some((fixed_line(b"c 010b010001000000"), NextLine::Tone)),
        NextLine::Tone => Some((tone_line(number), NextLine::Deviation(250))),
        NextLine::Deviation(count) => Some(next_group(draws, count)),
        NextLine::FeedbackLosses(group) => Some((
            run_line(8 * u64::from(group.eights), b" f1"),
            next_after_feedback_losses(group),
        )),
        NextLine::Unpacked(group) => Some((run_line(1, b" o1"), NextLine::Rest(group))),
        NextLine::Rest(group) => Some((rest_line(group), NextLine::Deviation(group.following))),
        NextLine::End => None,
    }
}

// The next bytes of the descriptor, after so many lines of them, or its end.
fn feed(bytes: &[u8], fed: u8) -> (LineText, NextLine)
    requires { length bytes.now ≤ 1024 }
    ensures { (number hertz x : ℕ) → lines_left number hertz bytes.now x (NextLine.Feed fed)
        ≡ result.0 ∷ lines_left number hertz bytes.now x result.1 }
{
    if 64 * usize::from(fed) < bytes.len() {
        (feed_line(bytes, usize::from(fed)), NextLine::Feed(fed + 1))
    } else {
        (fixed_line(b"g"), NextLine::Rate)
    }
}
