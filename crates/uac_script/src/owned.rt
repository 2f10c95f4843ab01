// A line with its long parts in itself, of one whose long parts lie elsewhere.
ghost use Rattle.std.specs.Prelude.{◌≡◌, ◌≤◌, length};
ghost use Rattle.uac_script.specs.Line.{phrase_of};
ghost use Rattle.uac_script.specs.Lent.{lent_phrase, Fits};

use crate::lent::LentLine;
use crate::line::Line;
use arrayvec::ArrayVec;

// The items, copied.
fn array_with<T: Copy + Default, const N: usize>(items: &[T]) -> ArrayVec<T, N>
    requires { length items.now ≤ N }
    ensures { result.items ≡ items.now }
{
    match ArrayVec::try_from(items) {
        Ok(copy) => copy,
        Err(_) => unreachable!(),
    }
}

/// A lent line with its long parts copied into it.
pub fn owned_line(line: LentLine<'_>) -> Line
    requires { Fits line }
    ensures { phrase_of result ≡ lent_phrase line.entry }
{
    match line {
        LentLine::Nothing => Line::Nothing,
        LentLine::Bytes(bytes) => Line::Bytes(array_with(bytes)),
        LentLine::Go => Line::Go,
        LentLine::Control { setup, sent } => Line::Control {
            setup,
            sent: array_with(sent),
        },
        LentLine::Get(name) => Line::Get(array_with(name)),
        LentLine::Set(name, value) => Line::Set(array_with(name), value),
        LentLine::Show(name) => Line::Show(array_with(name)),
        LentLine::Break { after } => Line::Break { after },
        LentLine::Append { interface, samples } => Line::Append {
            interface,
            samples: array_with(samples),
        },
        LentLine::Track { interface, tone } => Line::Track { interface, tone },
        LentLine::Jack { terminal, tone } => Line::Jack { terminal, tone },
        LentLine::Deviate { domain, ppm } => Line::Deviate { domain, ppm },
        LentLine::Run { count, marks } => Line::Run {
            count,
            marks: array_with(marks),
        },
        LentLine::Detail(level) => Line::Detail(level),
        LentLine::Report => Line::Report,
    }
}
