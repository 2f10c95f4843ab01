// A running device.
ghost use Rattle.std.specs.Prelude.{◌≡◌, ℕ, ◌≤ℤ◌, pos, negsuc, List, map, filter, IfOk, OnOk, OnErr};
ghost use Rattle.uac_units.specs.Hearing.{Reading};
ghost use Rattle.uac_units.specs.MeterReadings.{readings};
ghost use Rattle.uac_edges.specs.Faults.{HasCause};
ghost use Rattle.uac_edges.specs.Writing.{Writes};
ghost use Rattle.uac_host.specs.HostCalls.{AreWhole};
ghost use Rattle.uac_running.specs.RunningWorld.{RunningWorld, at_start};
ghost use Rattle.uac_running.specs.RunningWorld.{with_detail, with_deviation, with_samples_on, with_jack_tone, with_track};
ghost use Rattle.uac_running.specs.RunningWorld as spec;
ghost use Rattle.uac_transcript.specs.Printing.{Prints};
ghost use Rattle.uac_transcript.specs.Transcript.{spelling_of};
ghost use Rattle.uac_running.specs.RunningLines.{ready_line, report_lines};
ghost use Rattle.uac_topology.specs.Configuration.{configuration_of};
ghost use Rattle.uac_running.specs.RunningKept.{RunningStandsBetween};
ghost use Rattle.uac_running.specs.TickCounts.{none_counted};
ghost use Rattle.uac_device.specs.DeviceKept as kept;
ghost use Rattle.uac_device.specs.DeviceWorld.{fresh, is_input_jack};
ghost use Rattle.uac_streaming.specs.StreamingKept as streams;
ghost use Rattle.uac_streaming.specs.StreamingWorld.{streaming_start};

use crate::counts::{TickCount, no_ticks};
use crate::jacks::{set_tone, silent_jacks};
use crate::report::{write_head, write_rest};
use std::alloc::Global;
use std::marker::Model;
use uac_descriptor::{ByteList, NoMemory};
use uac_device::{Device, Jack};
use uac_edges::{Failed, Sink};
use uac_mixer::{View, When, fresh_viewed};
use uac_pcm::Tone;
use uac_streaming::Streaming;
use uac_topology::Function;
use uac_topology::laws::functions_are_sound;
use uac_transcript::write_ready;
use uac_units::{Meter, Meters};

/// A device that runs from the descriptor's end on, under the tones of its input jacks.
#[derive(Drop)]
pub struct Running {
    pub(crate) device: Device,
    pub(crate) view: View,
    /// The configuration's bytes, of which descriptors are answered.
    pub(crate) configuration: ByteList,
    /// When the next transfer breaks; None where it doesn't.
    pub(crate) breaks: Option<When>,
    pub(crate) streaming: Streaming,
    pub(crate) jacks: Vec<Jack>,
    pub(crate) counts: Vec<TickCount>,
    pub(crate) time: u64,
    pub(crate) detail: u8,
    pub(crate) renders: u64,
}

impl Model for Running {
    ghost use Rattle.uac_running.specs.RunningKept.{RunningFields, HasItsOwn};

    ghost Value = { RunningFields };

    ghost view = { λ p. record {
      device = p.device;
      streaming = p.streaming;
      view = p.view;
      configuration = p.configuration;
      breaks = p.breaks;
      jacks = p.jacks.items;
      counts = p.counts.items;
      time = p.time;
      detail = p.detail;
      renders = p.renders;
    } };

    ghost invariant = { λ p. HasItsOwn
        (record {
          device = p.device;
          streaming = p.streaming;
          view = p.view;
          configuration = p.configuration;
          breaks = p.breaks;
          jacks = p.jacks.items;
          counts = p.counts.items;
          time = p.time;
          detail = p.detail;
          renders = p.renders;
        }) };
}

impl Running {
    /// A device of a function, just after the descriptor's end, with all the memory that it will use.
    pub fn new(
        alloc: Global,
        function: Function,
        configuration: ByteList,
    ) -> Result<Running, NoMemory>
        ensures stands { IfOk result (λ running. (descriptor : List ℕ) (meters : List Reading) → configuration ≡ configuration_of descriptor
            → RunningStandsBetween running meters (at_start descriptor function meters)) }
        ensures function { IfOk result (λ running. running.device.function ≡ function) }
    {
        functions_are_sound(&function);
        let beside = fresh_beside(alloc, &function)?;
        match fresh_viewed(alloc, function) {
            Ok(viewed) => Ok(Running {
                device: viewed.device,
                view: viewed.view,
                configuration,
                breaks: None,
                streaming: beside.streaming,
                jacks: beside.jacks,
                counts: beside.counts,
                time: 0,
                detail: 0,
                renders: 0,
            }),
            Err(NoMemory) => {
                beside.streaming.let_go();
                Err(NoMemory)
            }
        }
    }

    /// Lets all go: the device and the host's streams by calls, and the rest at its end. A caller that ends so needs no proof of
    /// its own of how each part is let go.
    pub fn let_go(self) {
        self.device.let_go();
        self.streaming.let_go();
    }

    /// The device's function.
    pub fn function(&self) -> &Function
        ensures { result.now ≡ self.now.device.function }
    {
        self.device.function()
    }

    /// An input jack gives this tone from now on, from its first frame.
    pub fn set_tone(&mut self, terminal: u8, tone: Tone)
        ensures stands { (meters : List Reading) (r : RunningWorld) → RunningStandsBetween self.old meters r
            → RunningStandsBetween self.new meters (with_jack_tone terminal tone r) }
        ensures function { self.new.device.function ≡ self.old.device.function }
    {
        set_tone(&mut self.jacks, terminal, tone);
    }

    /// A domain's clock is off by so many ppm (-100,000 to 100,000) from now on.
    pub fn deviate(&mut self, domain: u8, ppm: i32)
        requires low { negsuc 99999 ≤ℤ ppm }
        requires high { ppm ≤ℤ pos 100000 }
        ensures stands { (meters : List Reading) (r : RunningWorld) → RunningStandsBetween self.old meters r
            → RunningStandsBetween self.new meters (with_deviation domain ppm r) }
        ensures function { self.new.device.function ≡ self.old.device.function }
    {
        self.device.deviate(domain, ppm);
        self.streaming.deviate(ppm);
    }

    /// Sets how much is printed from now on: 0, 1 or 2.
    pub fn set_detail(&mut self, level: u8)
        ensures stands { (meters : List Reading) (r : RunningWorld) → RunningStandsBetween self.old meters r
            → RunningStandsBetween self.new meters (with_detail level r) }
        ensures function { self.new.device.function ≡ self.old.device.function }
    {
        self.detail = level;
    }

    /// Frames wait after those that do on an interface: samples of full scale, channel after channel, in whole frames of its terminal.
    /// After `NoMemory` all is as it was.
    pub fn append(&mut self, interface: u8, samples: &[i32]) -> Result<(), NoMemory>
        ensures stands { (meters : List Reading) (r : RunningWorld) → RunningStandsBetween self.old meters r
            → AreWhole r.host.function interface samples.now
            → OnOk result (RunningStandsBetween self.new meters (with_samples_on interface samples.now r)) }
        ensures unchanged { OnErr result (self.new ≡ self.old) }
        ensures function { self.new.device.function ≡ self.old.device.function }
    {
        self.streaming.append(interface, samples)
    }

    /// A tone follows the frames that wait on an interface, from its first frame.
    pub fn track(&mut self, interface: u8, tone: Tone)
        ensures stands { (meters : List Reading) (r : RunningWorld) → RunningStandsBetween self.old meters r
            → RunningStandsBetween self.new meters (with_track interface tone r) }
        ensures function { self.new.device.function ≡ self.old.device.function }
    {
        self.streaming.track(interface, tone);
    }

    /// Prints the report.
    pub fn report<K: Sink>(&self, meters: &Meters, sink: &mut K) -> Result<(), Failed>
        ensures printed { (r : RunningWorld)
            → RunningStandsBetween self.now (readings (λ v x. (⟦<dyn Meter as Meter>⟧ v).reading_of x) meters.now) r
            → Prints (K.written sink.old) (K.written sink.new) result (report_lines r) }
        ensures cause { HasCause (K.faults sink.old) (K.faults sink.new) result }
    {
        write_head(sink, self.time, self.streaming.is_steady())?;
        write_rest(
            sink,
            &self.device,
            &self.streaming,
            &self.counts,
            meters,
            self.renders,
        )
    }

    /// Prints the line of the descriptor's end.
    pub fn ready<K: Sink>(&self, sink: &mut K) -> Result<(), Failed>
        ensures written { Writes (K.written sink.old) (K.written sink.new) result (spelling_of (ready_line self.now.device.function)) }
        ensures cause { HasCause (K.faults sink.old) (K.faults sink.new) result }
    {
        let function = self.device.function();
        write_ready(
            sink,
            function.entities().len(),
            function.streams().len(),
            function.domains().len(),
        )
    }
}

/// What is kept beside a device and the host's view of it.
#[derive(Drop)]
struct Beside {
    streaming: Streaming,
    jacks: Vec<Jack>,
    counts: Vec<TickCount>,
}

/// What is kept beside a fresh device of a function: a host of which no stream runs, silent jacks, and no ticks yet.
fn fresh_beside(alloc: Global, function: &Function) -> Result<Beside, NoMemory>
    ensures streaming { IfOk result (λ beside. (d : kept.DeviceFields) → kept.DeviceStands d (fresh function.now)
        → streams.StreamingStands beside.streaming d (streaming_start function.now)) }
    ensures jacks { IfOk result (λ beside. beside.jacks.items ≡ map spec.silent_jack (filter is_input_jack function.now.entities)) }
    ensures counts { IfOk result (λ beside. beside.counts.items ≡ map none_counted function.now.domains) }
{
    let jacks = silent_jacks(alloc, function.entities())?;
    let counts = no_ticks(alloc, function.domains())?;
    let streaming = Streaming::new(alloc, function)?;
    Ok(Beside {
        streaming,
        jacks,
        counts,
    })
}
