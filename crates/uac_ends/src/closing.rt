// The end of a run at its sink: its text, and all that waits there.
ghost use Rattle.std.specs.Prelude.{◌≡◌, ◌≢◌};
ghost use Rattle.std.specs.Io.KnownBytes.{Keeps};
ghost use Rattle.uac_ends.specs.Closing.{Closes};
ghost use Rattle.uac_ends.specs.HandingOn.{HandsOn};

use crate::status::Status;
use uac_edges::{Failed, Sink, give_all};

/// Writes the text of a run, whose status comes where the sink takes all of it.
pub fn close<K: Sink>(sink: &mut K, text: &[u8], status: Status) -> Status
    ensures { Closes (record { text = text.now; status = status }) (K.written sink.old) (K.written sink.new) (K.faults sink.old)
        (K.faults sink.new) result }
{
    match give_all(sink, text) {
        Ok(()) => status,
        Err(_) => Status::WriteFault,
    }
}

/// Closes a run, and then hands on all that waits in the sink.
pub fn conclude<K: Sink>(sink: &mut K, text: &[u8], status: Status) -> Status
    ensures closed { Closes (record { text = text.now; status = status }) (K.written sink.old) (K.written sink.new) (K.faults sink.old)
        (K.faults sink.new) result }
    ensures handed_on { result ≢ Status.WriteFault → K.waiting sink.new ≡ 0 }
{
    let status = close(sink, text, status);
    hand_on(status, sink)
}

/// Hands on all that waits in the sink at the end of a run, and returns how that ends then. After a write that failed nothing is handed on.
pub fn hand_on<K: Sink>(status: Status, sink: &mut K) -> Status
    ensures kept { Keeps (K.written sink.old) (K.written sink.new) }
    ensures ends { HandsOn status (K.faults sink.old) (K.faults sink.new) result }
    ensures handed_on { result ≢ Status.WriteFault → K.waiting sink.new ≡ 0 }
{
    if status == Status::WriteFault {
        return status;
    }
    match sink.flush() {
        Ok(()) => status,
        Err(Failed) => Status::WriteFault,
    }
}
