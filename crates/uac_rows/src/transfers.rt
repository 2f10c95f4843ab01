// The lines of control transfers, and those that name an element.
ghost use Rattle.std.specs.Prelude.{◌≡◌, ◌≢◌, List, false, IfErr};
ghost use Rattle.uac_units.specs.Hearing.{Reading};
ghost use Rattle.uac_script.specs.Phrase as phrase;
ghost use Rattle.uac_running.specs.RunningWorld.{RunningWorld};
ghost use Rattle.uac_running.specs.RunningKept.{RunningStandsBetween};
ghost use Rattle.uac_rows.specs.BusWorld.{step_running};
ghost use Rattle.uac_rows.specs.Rows.{RunsAs, HasWriteCause};
ghost use Rattle.uac_rows.specs.BusSteps.{Does, is_final};

use uac_edges::Sink;
use uac_fault::BusFault;
use uac_request::Setup;
use uac_running::Running;

/// A control transfer.
pub(crate) fn control<K: Sink>(
    running: &mut Running,
    setup: [u8; 8],
    sent: &[u8],
    sink: &mut K,
) -> Result<(), BusFault>
    ensures does { (shown : List Reading) (r : RunningWorld) → RunningStandsBetween running.old shown r
        → Does (step_running r (phrase.control_line setup sent.now)) false
        (RunsAs running.new shown) (K.written sink.old) (K.written sink.new) result }
    ensures script { IfErr result (λ fault. is_final fault ≡ false → running.new ≡ running.old) }
    ensures unwritten { IfErr result (λ fault. fault ≢ BusFault.WriteFault → sink.new ≡ sink.old) }
    ensures faults { HasWriteCause (K.faults sink.old) (K.faults sink.new) result }
{
    let setup = Setup::read(setup);
    running.control(&setup, sent, sink)?;
    Ok(())
}

/// Reads an element from the device.
pub(crate) fn get<K: Sink>(running: &mut Running, name: &[u8], sink: &mut K) -> Result<(), BusFault>
    ensures does { (shown : List Reading) (r : RunningWorld) → RunningStandsBetween running.old shown r
        → Does (step_running r (phrase.get_line name.now)) false
        (RunsAs running.new shown) (K.written sink.old) (K.written sink.new) result }
    ensures script { IfErr result (λ fault. is_final fault ≡ false → running.new ≡ running.old) }
    ensures unwritten { IfErr result (λ fault. fault ≢ BusFault.WriteFault → sink.new ≡ sink.old) }
    ensures faults { HasWriteCause (K.faults sink.old) (K.faults sink.new) result }
{
    let Some(at) = running.element(name) else {
        return Err(BusFault::Script(6));
    };
    running.read_element(at, sink)?;
    Ok(())
}

/// Sets an element of the device.
pub(crate) fn set<K: Sink>(
    running: &mut Running,
    name: &[u8],
    value: i32,
    sink: &mut K,
) -> Result<(), BusFault>
    ensures does { (shown : List Reading) (r : RunningWorld) → RunningStandsBetween running.old shown r
        → Does (step_running r (phrase.set_line name.now value)) false
        (RunsAs running.new shown) (K.written sink.old) (K.written sink.new) result }
    ensures script { IfErr result (λ fault. is_final fault ≡ false → running.new ≡ running.old) }
    ensures unwritten { IfErr result (λ fault. fault ≢ BusFault.WriteFault → sink.new ≡ sink.old) }
    ensures faults { HasWriteCause (K.faults sink.old) (K.faults sink.new) result }
{
    let Some(at) = running.element(name) else {
        return Err(BusFault::Script(6));
    };
    if !running.fits(at, value) {
        return Err(BusFault::Script(7));
    }
    running.set_element(at, value, sink)?;
    Ok(())
}

/// Prints what the host knows of an element.
pub(crate) fn show<K: Sink>(running: &Running, name: &[u8], sink: &mut K) -> Result<(), BusFault>
    ensures does { (shown : List Reading) (r : RunningWorld) → RunningStandsBetween running.now shown r
        → Does (step_running r (phrase.show_line name.now)) false
        (RunsAs running.now shown) (K.written sink.old) (K.written sink.new) result }
    ensures unwritten { IfErr result (λ fault. fault ≢ BusFault.WriteFault → sink.new ≡ sink.old) }
    ensures faults { HasWriteCause (K.faults sink.old) (K.faults sink.new) result }
{
    let Some(at) = running.element(name) else {
        return Err(BusFault::Script(6));
    };
    running.show_element(at, sink)?;
    Ok(())
}
