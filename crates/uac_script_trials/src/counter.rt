// A machine that counts lines: it refuses some, and takes memory at some.
ghost use Rattle.std.specs.Prelude.{◌≡◌, ◌+◌, ◌<◌};
ghost use Rattle.uac_edges.specs.Faults.{HasCause};
ghost use Rattle.uac_edges.specs.Writing.{Writes};
ghost use Rattle.uac_script_trials.specs.Counting.{count_spell};

use uac_edges::{Failed, Sink, TextLine, give_all};
use uac_ends::LineFault;
use uac_grammar_rules::GrammarFault;
use uac_runner::LineMachine;
use uac_topology_rules::TopologyFault;

/// Counts lines. There is memory for so many.
#[derive(Drop)]
pub(crate) struct Counter {
    pub(crate) count: u64,
    pub(crate) spare: u64,
}

/// What the counter told last.
#[derive(Drop)]
pub(crate) struct Heard {
    pub(crate) count: u64,
}

impl Counter {
    /// Counts a line, and prints the count.
    fn tell<K: Sink>(&mut self, heard: &mut Heard, sink: &mut K) -> Result<(), Failed>
        requires few { self.old.count < 268435456 }
        ensures written { Writes (K.written sink.old) (K.written sink.new) result (count_spell (self.old.count + 1)) }
        ensures cause { HasCause (K.faults sink.old) (K.faults sink.new) result }
        ensures counted { self.new.count ≡ self.old.count + 1 }
        ensures heard { heard.new.count ≡ self.old.count + 1 }
    {
        self.count += 1;
        heard.count = self.count;
        let mut line: TextLine<32> = TextLine::new();
        line.push_number(self.count);
        line.push(b"\n");
        give_all(sink, line.as_bytes())
    }
}

impl LineMachine for Counter {
    ghost use Rattle.std.specs.Prelude.{◌≡◌, ℕ, ⊤};
    ghost use Rattle.uac_script_trials.specs.Counting.{count_machine, count_free, count_idle};

    type Beside = Heard;

    ghost World = { ℕ };

    ghost Printed = { ℕ };

    ghost machine = { count_machine };

    ghost stands = { λ s heard w. (s.count ≡ w) × (heard.count ≡ w) };

    ghost shows = { λ heard w. heard.count ≡ w };

    ghost fits = { λ _. ⊤ };

    ghost counted = { λ s. s.count };

    fn line<K: Sink>(
        &mut self,
        text: &[u8],
        beside: &mut Heard,
        sink: &mut K,
    ) -> Result<(), LineFault> {
        match text {
            [] => return Ok(()),
            [b'#', ..] => return Ok(()),
            [b'!', ..] => return Err(LineFault::Script(7)),
            [b'g', ..] => return Err(LineFault::Grammar(GrammarFault { rule: 3, at: 7 })),
            [b't', ..] => {
                return Err(LineFault::Topology(TopologyFault {
                    rule: 5,
                    id: 9,
                    interface: false,
                }));
            }
            [b'm', ..] => {
                if self.spare == 0 {
                    return Err(LineFault::NoMemory);
                }
                self.spare -= 1;
            }
            _ => {}
        }
        match self.tell(beside, sink) {
            Ok(()) => Ok(()),
            Err(Failed) => Err(LineFault::WriteFault),
        }
    }

    fn finish(&self, _beside: &Heard) -> Result<(), LineFault> {
        if self.count == 0 {
            Err(LineFault::Script(8))
        } else {
            Ok(())
        }
    }

    ghost shown = { λ s heard w h. h.1 };

    ghost free = { count_free };

    ghost idle = { count_idle };
}
