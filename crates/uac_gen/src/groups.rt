// The lines of a group: 32 microframes under one deviation of the clock.
ghost use Rattle.std.specs.Prelude.{◌≡◌, ℕ, List, ◌∷◌, ◌++◌};
ghost use Rattle.uac_gen.specs.Generator.{feedback_loss_lines, unpacked_lines, rest_line};
ghost use Rattle.uac_gen.specs.Left.{lines_left, from_groups};

use crate::draws::Draws;
use crate::lines::{LineText, deviation_line, fixed_line, run_line};
use crate::next_line::{Group, NextLine};

/// Draws the next of so many groups: its first line, and which is next after it. After the last group
/// is the report.
pub fn next_group(draws: &mut Draws, count: u8) -> (LineText, NextLine)
    ensures { (number hertz : ℕ) (bytes : List ℕ)
        → from_groups count draws.old.x ≡ result.0 ∷ lines_left number hertz bytes draws.new.x result.1 }
{
    if count == 0 {
        return (fixed_line(b"q"), NextLine::End);
    }
    let drawn = draws.draw(2001);
    let eights = draws.draw(4) as u8;
    let lost = draws.draw(2) == 1;
    let group = Group {
        eights,
        lost,
        following: count - 1,
    };
    (deviation_line(drawn), next_after_deviation(group))
}

// What comes after a group's first line.
fn next_after_deviation(group: Group) -> NextLine
    ensures { (number hertz x : ℕ) (bytes : List ℕ) → lines_left number hertz bytes x result
        ≡ feedback_loss_lines group.eights
        ++ (unpacked_lines group.lost ++ rest_line group.eights group.lost ∷ from_groups group.following x) }
{
    if group.eights > 0 {
        NextLine::FeedbackLosses(group)
    } else {
        next_after_feedback_losses(group)
    }
}

/// What comes after the microframes of a group that lose their feedback.
pub fn next_after_feedback_losses(group: Group) -> NextLine
    ensures { (number hertz x : ℕ) (bytes : List ℕ) → lines_left number hertz bytes x result
        ≡ unpacked_lines group.lost ++ rest_line group.eights group.lost ∷ from_groups group.following x }
{
    if group.lost {
        NextLine::Unpacked(group)
    } else {
        NextLine::Rest(group)
    }
}

/// What is left of the 32 microframes.
pub fn rest_line(group: Group) -> LineText
    ensures { result ≡ rest_line group.eights group.lost }
{
    let whole = if group.lost { 31 } else { 32 };
    run_line(whole - 8 * u64::from(group.eights), b"")
}
