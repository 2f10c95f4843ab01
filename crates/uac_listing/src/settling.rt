// How long streams take to come home, rate by rate.
ghost use Rattle.std.specs.Prelude.{◌≡◌, ◌≢◌, ◌++◌, codes, decimal, flat_map};
ghost use Rattle.uac_edges.specs.Faults.{HasCause, Rose};
ghost use Rattle.uac_edges.specs.Writing.{Writes};
ghost use Rattle.uac_listing.specs.SettleLines.{settle_outcome, settling_line};
ghost use Rattle.uac_ends.specs.Closing.{Closes};

use uac_clock::RATES;
use uac_clock::laws::nominal_values_leave_room;
use uac_edges::{Failed, Sink, TextLine, give_all};
use uac_ends::Status;
use uac_settle::settle_bound;

/// Prints for each of the twelve rates after how many microframes a stream is home.
pub fn settle<K: Sink>(sink: &mut K) -> Status
    ensures closed { Closes settle_outcome (K.written sink.old) (K.written sink.new) (K.faults sink.old) (K.faults sink.new) result }
    ensures write_fault { result ≡ Status.WriteFault → Rose (K.faults sink.old) (K.faults sink.new) }
    ensures faultless { result ≢ Status.WriteFault → K.faults sink.new ≡ K.faults sink.old }
    ensures else_ok { result ≢ Status.WriteFault → result ≡ Status.Ok }
{
    nominal_values_leave_room();
    match write_rates(sink, RATES.as_slice()) {
        Ok(()) => Status::Ok,
        Err(Failed) => Status::WriteFault,
    }
}

/// Writes the line of each rate.
fn write_rates<K: Sink>(sink: &mut K, rates: &[u32]) -> Result<(), Failed>
    ensures written { Writes (K.written sink.old) (K.written sink.new) result (flat_map settling_line rates.now) }
    ensures cause { HasCause (K.faults sink.old) (K.faults sink.new) result }
{
    for rate in rates {
        write_rate(sink, *rate)?;
    }
    Ok(())
}

/// Writes the line of a rate, where that is one of the twelve.
fn write_rate<K: Sink>(sink: &mut K, rate: u32) -> Result<(), Failed>
    ensures written { Writes (K.written sink.old) (K.written sink.new) result (settling_line rate) }
    ensures cause { HasCause (K.faults sink.old) (K.faults sink.new) result }
{
    match settle_bound(rate) {
        Some(bound) => give_all(sink, line(rate, bound).as_bytes()),
        None => Ok(()),
    }
}

/// A rate and its bound, in microframes.
fn line(rate: u32, bound: u32) -> TextLine<64>
    ensures { result ≡ codes "rate " ++ decimal rate ++ codes " settle " ++ decimal bound ++ codes "\n" }
{
    let mut line = TextLine::new();
    line.push(b"rate ");
    line.push_number(u64::from(rate));
    line.push(b" settle ");
    line.push_number(u64::from(bound));
    line.push(b"\n");
    line
}
