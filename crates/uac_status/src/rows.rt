// The lines of a device with a front panel.
ghost use Rattle.std.specs.Prelude.{◌≡◌, ◌≢◌, false, true, IfErr};
ghost use Rattle.uac_script.specs.Phrase as phrase;
ghost use Rattle.uac_script.specs.Lent.{lent_phrase};
ghost use Rattle.uac_status.specs.Panels.{PanelWorld};
ghost use Rattle.uac_status.specs.DeskPhrases.{follow_line, table_line, turn_line};
ghost use Rattle.uac_status.specs.DeskLines.{desk_phrase};
ghost use Rattle.uac_status.specs.Desks.{step_fronted, wants_memory, fronted};
ghost use Rattle.uac_status.specs.FrontKept.{Does, FrontAs, FrontStands, HasWriteCause, is_final};

use crate::front::Front;
use crate::printing::write_turned;
use crate::reading::DeskLine;
use uac_edges::Sink;
use uac_ends::LineFault;
use uac_script::LentLine;

/// Does a line.
pub(crate) fn play<K: Sink>(
    front: &mut Front,
    line: DeskLine<'_>,
    sink: &mut K,
) -> Result<(), LineFault>
    ensures does { (w : PanelWorld) → FrontStands front.old w
        → Does (step_fronted w (desk_phrase line.entry)) (wants_memory (desk_phrase line.entry) (fronted w))
        (FrontAs front.new) (K.written sink.old) (K.written sink.new) result }
    ensures script { IfErr result (λ fault. is_final fault ≡ false → front.new ≡ front.old) }
    ensures unwritten { IfErr result (λ fault. fault ≢ LineFault.WriteFault → sink.new ≡ sink.old) }
    ensures faults { HasWriteCause (K.faults sink.old) (K.faults sink.new) result }
{
    match line {
        DeskLine::Turn(name, value) => turn(front, name, value, sink),
        DeskLine::Follow => follow(front, sink),
        DeskLine::Table(line) => play_table(front, line, sink),
    }
}

/// Does a line of the table of lines. Those that this script hasn't got break rule 5.
fn play_table<K: Sink>(front: &mut Front, line: LentLine<'_>, sink: &mut K) -> Result<(), LineFault>
    ensures does { (w : PanelWorld) → FrontStands front.old w
        → Does (step_fronted w (table_line (lent_phrase line.entry))) false
        (FrontAs front.new) (K.written sink.old) (K.written sink.new) result }
    ensures script { IfErr result (λ fault. is_final fault ≡ false → front.new ≡ front.old) }
    ensures unwritten { IfErr result (λ fault. fault ≢ LineFault.WriteFault → sink.new ≡ sink.old) }
    ensures faults { HasWriteCause (K.faults sink.old) (K.faults sink.new) result }
{
    match line {
        LentLine::Nothing => Ok(()),
        LentLine::Get(name) => get(front, name, sink),
        LentLine::Set(name, value) => set(front, name, value, sink),
        LentLine::Show(name) => show(front, name, sink),
        LentLine::Break { after } => {
            front.set_break(after);
            Ok(())
        }
        LentLine::Bytes(_)
        | LentLine::Go
        | LentLine::Control { .. }
        | LentLine::Append { .. }
        | LentLine::Track { .. }
        | LentLine::Jack { .. }
        | LentLine::Deviate { .. }
        | LentLine::Run { .. }
        | LentLine::Detail(_)
        | LentLine::Report => Err(LineFault::Script(5)),
    }
}

/// Reads an element from the device.
fn get<K: Sink>(front: &mut Front, name: &[u8], sink: &mut K) -> Result<(), LineFault>
    ensures does { (w : PanelWorld) → FrontStands front.old w
        → Does (step_fronted w (table_line (phrase.get_line name.now))) false
        (FrontAs front.new) (K.written sink.old) (K.written sink.new) result }
    ensures script { IfErr result (λ fault. is_final fault ≡ false → front.new ≡ front.old) }
    ensures unwritten { IfErr result (λ fault. fault ≢ LineFault.WriteFault → sink.new ≡ sink.old) }
    ensures faults { HasWriteCause (K.faults sink.old) (K.faults sink.new) result }
{
    let Some(at) = front.find(name) else {
        return Err(LineFault::Script(6));
    };
    front.read_element(at, sink)?;
    Ok(())
}

/// Sets an element of the device.
fn set<K: Sink>(front: &mut Front, name: &[u8], value: i32, sink: &mut K) -> Result<(), LineFault>
    ensures does { (w : PanelWorld) → FrontStands front.old w
        → Does (step_fronted w (table_line (phrase.set_line name.now value))) false
        (FrontAs front.new) (K.written sink.old) (K.written sink.new) result }
    ensures script { IfErr result (λ fault. is_final fault ≡ false → front.new ≡ front.old) }
    ensures unwritten { IfErr result (λ fault. fault ≢ LineFault.WriteFault → sink.new ≡ sink.old) }
    ensures faults { HasWriteCause (K.faults sink.old) (K.faults sink.new) result }
{
    let Some(at) = front.find(name) else {
        return Err(LineFault::Script(6));
    };
    if !front.fits(at, value) {
        return Err(LineFault::Script(7));
    }
    front.set_element(at, value, sink)?;
    Ok(())
}

/// Prints what the host knows of an element.
fn show<K: Sink>(front: &Front, name: &[u8], sink: &mut K) -> Result<(), LineFault>
    ensures does { (w : PanelWorld) → FrontStands front.now w
        → Does (step_fronted w (table_line (phrase.show_line name.now))) false
        (FrontAs front.now) (K.written sink.old) (K.written sink.new) result }
    ensures unwritten { IfErr result (λ fault. fault ≢ LineFault.WriteFault → sink.new ≡ sink.old) }
    ensures faults { HasWriteCause (K.faults sink.old) (K.faults sink.new) result }
{
    let Some(at) = front.find(name) else {
        return Err(LineFault::Script(6));
    };
    front.show_element(at, sink)?;
    Ok(())
}

/// Turns the knob of an element.
fn turn<K: Sink>(front: &mut Front, name: &[u8], value: i32, sink: &mut K) -> Result<(), LineFault>
    ensures does { (w : PanelWorld) → FrontStands front.old w
        → Does (step_fronted w (turn_line name.now value)) true
        (FrontAs front.new) (K.written sink.old) (K.written sink.new) result }
    ensures script { IfErr result (λ fault. is_final fault ≡ false → front.new ≡ front.old) }
    ensures unwritten { IfErr result (λ fault. fault ≢ LineFault.WriteFault → sink.new ≡ sink.old) }
    ensures faults { HasWriteCause (K.faults sink.old) (K.faults sink.new) result }
{
    let Some(at) = front.find(name) else {
        return Err(LineFault::Script(6));
    };
    if !front.fits(at, value) {
        return Err(LineFault::Script(7));
    }
    let turned = front.turn(at, value)?;
    write_turned(sink, turned)?;
    Ok(())
}

/// Follows the messages that wait.
fn follow<K: Sink>(front: &mut Front, sink: &mut K) -> Result<(), LineFault>
    ensures does { (w : PanelWorld) → FrontStands front.old w
        → Does (step_fronted w follow_line) false
        (FrontAs front.new) (K.written sink.old) (K.written sink.new) result }
    ensures script { IfErr result (λ fault. is_final fault ≡ false → front.new ≡ front.old) }
    ensures unwritten { IfErr result (λ fault. fault ≢ LineFault.WriteFault → sink.new ≡ sink.old) }
    ensures faults { HasWriteCause (K.faults sink.old) (K.faults sink.new) result }
{
    front.follow_all(sink)?;
    Ok(())
}
