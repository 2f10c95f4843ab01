// The device and its events.
ghost use Rattle.std.specs.Prelude.{◌≡◌, ◌≤◌, ◌<◌, ◌+◌, ◌*◌, ◌^◌, ◌≤ℤ◌, false, true, pos, negsuc, ℕ, List, IfOk, IfSome, length};
ghost use Rattle.std.specs.List.{All};
ghost use Rattle.std.specs.Option.{option_map};
ghost use Rattle.uac_graph.specs.Meaning.{entity};
ghost use Rattle.uac_graph.specs.Needs.{needed_units};
ghost use Rattle.uac_graph.specs.TickRows.{frames_at};
ghost use Rattle.uac_graph.specs.Wiring.{samples_on};
ghost use Rattle.uac_pcm.specs.Tones.{tone_frame};
ghost use Rattle.uac_units.specs.Fitting.{IsFitted};
ghost use Rattle.uac_units.specs.MeterReadings.{readings};
ghost use Rattle.uac_device.specs.DeviceWorld.{DeviceWorld, ZerosFitIn, after_advance, after_frames, arrival_in, after_deviation};
ghost use Rattle.uac_device.specs.DeviceWorld.{begun_by, feedback_in};
ghost use Rattle.uac_device.specs.DeviceWorld.{frames_in, fresh, heard_of, is_due_in, is_input_jack, is_output_jack, level_of, met_of};
ghost use Rattle.uac_device.specs.DeviceWorld.{next_ticks, packet_in, played_at, after_receiving, renders_of, runs_one};
ghost use Rattle.uac_device.specs.DeviceWorld.{after_sending_in_packet, set_jack, after_end};
ghost use Rattle.uac_device.specs.DeviceWorld.{at_in, target_of, after_tick};
ghost use Rattle.uac_flow.specs.FlowStreams.{in_level};
ghost use Rattle.uac_flow.specs.FlowWaits.{sent_more};
ghost use Rattle.uac_device.specs.DeviceSums.{after_advances, kept_ticks, ticks_over};
ghost use Rattle.uac_device.specs.DeviceWaits.{AreSteady, feedback_later_in, frames_later_in, may_wait_in, takes_in};
ghost use Rattle.uac_device.specs.DeviceKept.{IsControlled, DeviceStands, begun_fields};
ghost use Rattle.uac_device.specs.Stillness.{IsStill};
ghost use Rattle.uac_device.specs.InterfaceStreams.{NoneRuns};
ghost use Rattle.uac_request.specs.Requests.{answer_fields};
ghost use Rattle.uac_device.specs.DeviceTicks.{HoldPlayed, MeetsNothing, after_tick_times, goes_on, readings_after};
ghost use Rattle.uac_device.specs.DeviceTurns.{jacks_of};
ghost use Rattle.uac_device.specs.Jacks.{tones_of};

use crate::clocks::{DomainClock, advance_over, deviate, microframes_within};
use crate::derived::Derived;
use crate::device_streams::DeviceStreams;
use crate::hearing::{OutputJack, hear};
use crate::jacks::Jack;
use crate::parts::DeviceParts;
use crate::rows::{give_tones, hear_rows, hold_inputs, keep_frames};
use crate::still::{begin_unless, put_unless};
use crate::streams::{Acted, Begun, holds_setting, stream_asked};
use crate::terminals::is_output_jack;
use crate::ticking::Ticked;
use std::alloc::Global;
use std::marker::Model;
use uac_alt::Settings;
use uac_descriptor::NoMemory;
use uac_flow::Arrival;
use uac_graph::{Graph, WireRows, Wires};
use uac_pcm::{Frame, Packet, Tone};
use uac_request::laws::each_interface_starts_with_a_setting;
use uac_request::{Answer, Setup, answer};
use uac_store::Store;
use uac_topology::Function;
use uac_topology::laws::{
    entities_have_channels, functions_are_sound, interfaces_are_numbered, sound_functions_are_small,
};
use uac_units::{Meter, Meters, Rack, Steps, Unit, read_frame};

/// A virtual audio device.
#[derive(Drop)]
pub struct Device {
    function: Function,
    pub(crate) store: Store,
    settings: Settings,
    graph: Graph,
    derived: Derived,
    wires: Wires,
    clocks: Vec<DomainClock>,
    device_streams: DeviceStreams,
    rows: WireRows,
}

impl Model for Device {
    ghost use Rattle.std.specs.Prelude.{◌≡◌};
    ghost use Rattle.uac_device.specs.DeviceKept.{DeviceFields, IsDevice};
    ghost use Rattle.uac_device.specs.Following.{IsDerived};
    ghost use Rattle.uac_graph.specs.TickRows.{AreRowsOf};

    ghost Value = { DeviceFields };

    ghost view = { λ d. record {
      function = d.function;
      controls = d.store;
      settings = d.settings;
      clocks = d.clocks.items;
      wires = d.wires;
      device_streams = d.device_streams;
      rows = d.rows;
    } };

    ghost invariant = { λ d. IsDevice (record {
      function = d.function;
      controls = d.store;
      settings = d.settings;
      clocks = d.clocks.items;
      wires = d.wires;
      device_streams = d.device_streams;
      rows = d.rows;
    })
        × (d.graph ≡ d.function.entities)
        × IsDerived d.function d.store d.derived
        × AreRowsOf d.function.entities d.rows
        × (d.rows.room ≡ 128) };
}

impl Device {
    /// A device of a function, with all the memory that it will use.
    pub fn new(alloc: Global, function: Function) -> Result<Device, NoMemory>
        ensures { IfOk result (λ device. DeviceStands device (fresh function)) }
    {
        each_interface_starts_with_a_setting();
        let parts = DeviceParts::new(alloc, &function)?;
        Ok(Device {
            settings: Settings::new(&function),
            function,
            store: parts.store,
            graph: parts.followed.graph,
            derived: parts.followed.derived,
            wires: parts.moving.wires,
            clocks: parts.moving.clocks,
            device_streams: parts.moving.device_streams,
            rows: parts.moving.rows,
        })
    }

    /// Lets all go that the device holds: the three largest parts by calls, since a proof that has them all in one place takes several
    /// times as long, and the rest at its end. A caller that ends so needs no proof of its own of how each part is let go.
    pub fn let_go(self) {
        drop(self.function);
        drop(self.store);
        drop(self.graph);
    }

    /// The device's function.
    pub fn function(&self) -> &Function
        ensures { result.now ≡ self.now.function }
    {
        &self.function
    }

    /// The values of its controls.
    pub fn store(&self) -> &Store
        ensures { result.now ≡ self.now.controls }
    {
        &self.store
    }

    /// The settings of its interfaces.
    pub fn settings(&self) -> &Settings
        ensures { result.now ≡ self.now.settings }
    {
        &self.settings
    }

    /// How many frames lie in the ring of an interface's stream; 0 where it runs none.
    pub fn level(&self, interface: u8) -> u32
        ensures { (w : DeviceWorld) → DeviceStands self.now w → result ≡ level_of w interface }
    {
        self.device_streams.level(interface)
    }

    /// The level at which an interface's stream to the device was primed; None where none runs or it is priming.
    pub fn target(&self, interface: u8) -> Option<u32>
        ensures { (w : DeviceWorld) → DeviceStands self.now w → result ≡ target_of w interface }
    {
        self.device_streams.target(interface)
    }

    /// Whether an interface runs a stream that has a packet in the next microframe.
    pub fn due(&self, interface: u8) -> bool
        ensures { (w : DeviceWorld) → DeviceStands self.now w → result ≡ is_due_in w interface }
    {
        self.device_streams.due(interface)
    }

    /// Whether an interface runs a stream.
    pub fn runs(&self) -> bool
        ensures value { (w : DeviceWorld) → DeviceStands self.now w → result ≡ runs_one w }
        ensures none { (w : DeviceWorld) → DeviceStands self.now w → result ≡ false → NoneRuns w.outs w.ins }
    {
        self.device_streams.run_one()
    }

    /// The report that is due of an interface's stream to the device (USB 2.0, 5.12.4.2); None where none is.
    pub fn feedback(&self, interface: u8) -> Option<u32>
        ensures { (w : DeviceWorld) → DeviceStands self.now w → result ≡ feedback_in w interface }
    {
        self.device_streams.feedback(interface)
    }

    /// A packet comes to an interface, or is lost. Its frames are taken where the ring has room for all of them, and none where it
    /// hasn't. Where the interface runs no stream to the device, nothing takes it.
    pub fn microframe_out(&mut self, interface: u8, packet: Option<&Packet>) -> Arrival
        ensures stands { (w : DeviceWorld) → DeviceStands self.old w
            → DeviceStands self.new (after_receiving interface (option_map (λ p. p.now.items) packet.entry) w) }
        ensures arrival { (w : DeviceWorld) → DeviceStands self.old w
            → result ≡ arrival_in w interface (option_map (λ p. p.now.items) packet.entry) }
        ensures function { self.new.function ≡ self.old.function }
    {
        self.device_streams.receive(interface, packet)
    }

    /// Forms the packet that an interface sends: the oldest frames of the ring, as many as fit. Answers their number. It is empty
    /// where the interface runs no stream from the device.
    pub fn microframe_in(&mut self, interface: u8, packet: &mut Packet) -> u32
        ensures stands { (w : DeviceWorld) → DeviceStands self.old w → DeviceStands self.new (after_sending_in_packet interface w) }
        ensures packet { (w : DeviceWorld) → DeviceStands self.old w → packet.new.items ≡ packet_in w interface }
        ensures frames { (w : DeviceWorld) → DeviceStands self.old w → result ≡ frames_in w interface }
        ensures function { self.new.function ≡ self.old.function }
    {
        self.device_streams.send_in(interface, packet)
    }

    /// A microframe ends for an interface's stream. Where it was due, zeros replace a lost packet, one for each tick of its domain since
    /// the last such microframe, and a stream whose ring has enough frames is primed.
    pub fn settle(&mut self, interface: u8)
        ensures stands { (w : DeviceWorld) → DeviceStands self.old w → ZerosFitIn w interface
            → DeviceStands self.new (after_end interface w) }
        ensures function { self.new.function ≡ self.old.function }
    {
        self.device_streams.end_microframe(interface);
    }

    /// Answers a control request (Audio Class 2.0, 5.2; USB 2.0, 9.4). `sent` are the bytes that came with it. A stall changes
    /// nothing. An interface whose setting was set starts its stream anew, or stops it.
    #[inline(always)]
    pub fn control(&mut self, setup: &Setup, sent: &[u8]) -> Answer
        ensures { IsControlled setup.now sent.now (answer_fields result) self.old self.new }
    {
        self.act(setup, sent).answer
    }

    /// Answers a control request, as `control`, and tells what it began.
    #[inline(always)]
    pub fn act(&mut self, setup: &Setup, sent: &[u8]) -> Acted
        ensures controlled { IsControlled setup.now sent.now (answer_fields result.answer) self.old self.new }
        ensures began { option_map begun_fields result.began
            ≡ begun_by self.old.function self.old.controls setup.now (answer_fields result.answer) }
    {
        functions_are_sound(&self.function);
        let begun = stream_asked(&self.function, &self.store, setup.index, setup.value);
        let answer = answer(
            &self.function,
            &mut self.store,
            &mut self.settings,
            setup,
            sent,
        );
        self.derived
            .follow(&self.graph, &self.function, &self.store, setup);
        if holds_setting(setup, &answer) {
            self.device_streams.restart(setup.index, begun);
            let begun = Begun {
                interface: setup.index,
                stream: begun,
            };
            return Acted {
                answer,
                began: Some(begun),
            };
        }
        Acted {
            answer,
            began: None,
        }
    }

    /// A domain's clock is off by so many ppm from now on. A number of no domain changes nothing.
    pub fn deviate(&mut self, domain: u8, ppm: i32)
        requires low { negsuc 99999 ≤ℤ ppm }
        requires high { ppm ≤ℤ pos 100000 }
        ensures stands { (w : DeviceWorld) → DeviceStands self.old w → DeviceStands self.new (after_deviation domain ppm w) }
        ensures function { self.new.function ≡ self.old.function }
    {
        deviate(&mut self.clocks, domain, ppm);
    }

    /// A domain's clock goes on by one microframe; answers how often it ticks, at most 27 times. The streams to its terminals count
    /// these ticks.
    pub fn ticks(&mut self, domain: u8) -> u32
        ensures stands { (w : DeviceWorld) → DeviceStands self.old w → DeviceStands self.new (after_advance domain w) }
        ensures ticks { (w : DeviceWorld) → DeviceStands self.old w → result ≡ next_ticks domain w }
        ensures few { result ≤ 27 }
        ensures function { self.new.function ≡ self.old.function }
    {
        self.ticks_over(domain, 1)
    }

    /// A domain's clock goes on by so many microframes, as by `ticks` one after the other; answers how often it ticks in all of them. The
    /// streams to its terminals count these ticks.
    pub fn ticks_over(&mut self, domain: u8, microframes: u32) -> u32
        requires some { 1 ≤ microframes }
        requires few { microframes ≤ 64 }
        ensures stands { (w : DeviceWorld) → DeviceStands self.old w → DeviceStands self.new (after_advances domain microframes w) }
        ensures ticks { (w : DeviceWorld) → DeviceStands self.old w → result ≡ ticks_over domain microframes w }
        ensures kept { result ≡ kept_ticks self.old domain microframes }
        ensures few { result ≤ 27 * microframes }
        ensures function { self.new.function ≡ self.old.function }
    {
        functions_are_sound(&self.function);
        interfaces_are_numbered();
        let values = self.derived.values(&self.function, &self.store, domain);
        let ticks = advance_over(&mut self.clocks, domain, values, microframes);
        self.device_streams.count(domain, ticks);
        ticks
    }

    /// How many microframes a domain's clock may go on by, at most 64, so that it surely ticks no more than so often.
    pub fn microframes_within(&self, domain: u8, ticks: u32) -> u32
        requires { ticks ≤ 128 }
        ensures some { 27 ≤ ticks → 1 ≤ result }
        ensures few { result ≤ 64 }
        ensures within { (n : ℕ) → n ≤ result → kept_ticks self.now domain n ≤ ticks }
    {
        let values = self.derived.values(&self.function, &self.store, domain);
        microframes_within(&self.clocks, domain, values, ticks)
    }

    /// Sets the frame that an input jack gives at the next tick.
    /// Tests alone call it: a run gives tones, by `give_tone`.
    pub fn jack(&mut self, terminal: u8, frame: &Frame)
        requires jack { is_input_jack (entity self.old.function.entities terminal) ≡ true }
        requires channels { length frame.now.items ≡ (entity self.old.function.entities terminal).cluster.channels }
        ensures stands { (w : DeviceWorld) → DeviceStands self.old w → DeviceStands self.new (set_jack terminal frame.now.items w) }
        ensures function { self.new.function ≡ self.old.function }
    {
        self.wires.set(terminal, frame);
    }

    /// Has an input jack give the frame of a tone at a place, which counts frames from 0, at the next tick.
    pub fn give_tone(&mut self, terminal: u8, tone: Tone, place: u64)
        requires { is_input_jack (entity self.old.function.entities terminal) ≡ true }
        ensures stands { (w : DeviceWorld) → DeviceStands self.old w
            → DeviceStands self.new
            (set_jack terminal (tone_frame (entity self.old.function.entities terminal).cluster.channels tone place) w) }
        ensures function { self.new.function ≡ self.old.function }
    {
        self.wires.give_tone(terminal, tone, place);
    }

    /// One tick of a domain: its terminals of the bus take the next frame of their streams, or silence; its output terminals play the
    /// next frame; the streams from them take it; and the meters hear those of its output jacks, in block order. Each unit that the
    /// domain needs is rendered once, and `steps` counts them. Answers which rings were found empty, and which full.
    /// Tests alone call it: a run ticks by `tick_where`.
    pub fn tick(
        &mut self,
        domain: u8,
        rack: &Rack,
        meters: &mut Meters,
        steps: &mut Steps,
    ) -> Ticked
        requires rack { IsFitted (λ v x. (⟦<dyn Unit as Unit>⟧ v).kind_of x) rack.now }
        requires room { steps.old + length (needed_units self.old.function.entities domain) < 2 ^ 64 }
        ensures stands { (w : DeviceWorld) → DeviceStands self.old w → DeviceStands self.new (after_tick domain w) }
        ensures once { (w : DeviceWorld) → DeviceStands self.old w → steps.new ≡ steps.old + renders_of domain w }
        ensures heard { (w : DeviceWorld) → DeviceStands self.old w
            → readings (λ v x. (⟦<dyn Meter as Meter>⟧ v).reading_of x) meters.new
            ≡ after_frames (heard_of domain (after_tick domain w)) (readings (λ v x. (⟦<dyn Meter as Meter>⟧ v).reading_of x) meters.old) }
        ensures met { (w : DeviceWorld) → DeviceStands self.old w → result ≡ met_of domain w }
        ensures function { self.new.function ≡ self.old.function }
    {
        self.tick_where(false, domain, rack, meters, steps)
    }

    /// One tick of a domain, as `tick`, of a device that may be still: no interface runs a stream, and the terminals of the bus in the
    /// domain gave silence last. There these have their frames, no stream takes one, and no ring is found empty or full.
    pub fn tick_where(
        &mut self,
        still: bool,
        domain: u8,
        rack: &Rack,
        meters: &mut Meters,
        steps: &mut Steps,
    ) -> Ticked
        requires rack { IsFitted (λ v x. (⟦<dyn Unit as Unit>⟧ v).kind_of x) rack.now }
        requires room { steps.old + length (needed_units self.old.function.entities domain) < 2 ^ 64 }
        ensures stands { (w : DeviceWorld) → DeviceStands self.old w → (still ≡ true → IsStill domain w)
            → DeviceStands self.new (after_tick domain w) }
        ensures once { (w : DeviceWorld) → DeviceStands self.old w → steps.new ≡ steps.old + renders_of domain w }
        ensures heard { (w : DeviceWorld) → DeviceStands self.old w → (still ≡ true → IsStill domain w)
            → readings (λ v x. (⟦<dyn Meter as Meter>⟧ v).reading_of x) meters.new
            ≡ after_frames (heard_of domain (after_tick domain w)) (readings (λ v x. (⟦<dyn Meter as Meter>⟧ v).reading_of x) meters.old) }
        ensures met { (w : DeviceWorld) → DeviceStands self.old w → (still ≡ true → IsStill domain w) → result ≡ met_of domain w }
        ensures function { self.new.function ≡ self.old.function }
    {
        functions_are_sound(&self.function);
        sound_functions_are_small();
        interfaces_are_numbered();
        entities_have_channels();
        let met = begin_unless(still, &mut self.device_streams, domain, &mut self.wires);
        self.graph
            .tick_by(domain, &self.derived.jobs, rack, &mut self.wires, steps);
        put_unless(still, &mut self.device_streams, domain, &self.wires);
        hear(self.derived.jacks(), &self.wires, domain, meters);
        met
    }

    /// Whether so many ticks of a domain find no ring empty and none full.
    pub fn goes_on(&self, domain: u8, ticks: u32) -> bool
        ensures value { (w : DeviceWorld) → DeviceStands self.now w → result ≡ goes_on domain ticks w }
        ensures meets { (w : DeviceWorld) → DeviceStands self.now w → result ≡ true → MeetsNothing domain ticks w }
    {
        functions_are_sound(&self.function);
        interfaces_are_numbered();
        self.device_streams.go_on(domain, ticks)
    }

    /// Whether so many ticks of a domain may wait: each stream that runs is on the domain, those to the device are primed, without a lost
    /// packet and with a frame for each of the ticks, and the rings of those from it have room.
    pub fn may_wait(&self, domain: u8, ticks: u32) -> bool
        ensures value { (w : DeviceWorld) → DeviceStands self.now w → result ≡ may_wait_in domain ticks w }
        ensures steady { (w : DeviceWorld) → DeviceStands self.now w → result ≡ true → AreSteady domain ticks w }
    {
        functions_are_sound(&self.function);
        interfaces_are_numbered();
        self.device_streams.may_wait(domain, ticks)
    }

    /// Whether the ring of an interface's stream to the device has room for all frames of a packet of so many bytes; true where it runs
    /// none.
    pub fn takes(&self, interface: u8, bytes: u32) -> bool
        ensures { (w : DeviceWorld) (packet : List ℕ) → DeviceStands self.now w → length packet ≡ bytes
            → result ≡ takes_in w interface packet }
    {
        self.device_streams.takes(interface, bytes)
    }

    /// The report that is due of an interface's stream to the device, as `feedback`, when so many ticks wait.
    pub fn feedback_later(&self, interface: u8, ticks: u32) -> Option<u32>
        ensures { (w : DeviceWorld) → DeviceStands self.now w → result ≡ feedback_later_in w interface ticks }
    {
        self.device_streams.feedback_later(interface, ticks)
    }

    /// How many frames the next packet of an interface has, when so many ticks wait and so many of its frames were sent; 0 where it runs no
    /// stream from the device.
    pub fn frames_later(&self, interface: u8, ticks: u32, sent: u32) -> u32
        requires ticks { ticks ≤ 128 }
        requires sent { sent ≤ 2176 }
        ensures frames { (w : DeviceWorld) → DeviceStands self.now w → result ≡ frames_later_in w interface ticks sent }
        ensures few { sent + result ≤ 2176 }
    {
        self.device_streams.frames_later(interface, ticks, sent)
    }

    /// So many of the oldest frames of an interface's stream from the device are gone: they were sent.
    pub fn drop_sent(&mut self, interface: u8, count: u32)
        ensures stands { (w : DeviceWorld) → DeviceStands self.old w → IfSome (w.ins interface) (λ i. count ≤ in_level i)
            → DeviceStands self.new (at_in interface (sent_more count) w) }
        ensures function { self.new.function ≡ self.old.function }
    {
        self.device_streams.drop_sent(interface, count);
    }

    /// So many ticks of a domain, before each of which its jacks give the next frames of their tones: as `jack` and `tick`, one after the
    /// other. Each unit that the domain needs is asked once for all of them.
    pub fn tick_rows(
        &mut self,
        domain: u8,
        ticks: u32,
        jacks: &[Jack],
        rack: &Rack,
        meters: &mut Meters,
        steps: &mut Steps,
    )
        requires rack { IsFitted (λ v x. (⟦<dyn Unit as Unit>⟧ v).kind_of x) rack.now }
        requires some { 1 ≤ ticks }
        requires most { ticks ≤ 128 }
        requires kinds { All (λ j. is_input_jack (entity self.old.function.entities j.terminal) ≡ true) jacks.now }
        requires channels { All (λ j. (entity self.old.function.entities j.terminal).cluster.channels ≡ j.channels) jacks.now }
        requires room { steps.old + ticks * length (needed_units self.old.function.entities domain) < 2 ^ 64 }
        ensures stands { (w : DeviceWorld) → DeviceStands self.old w
            → DeviceStands self.new (after_tick_times domain (tones_of domain jacks.now) ticks w) }
        ensures once { (w : DeviceWorld) → DeviceStands self.old w → steps.new ≡ steps.old + ticks * renders_of domain w }
        ensures heard { (w : DeviceWorld) → DeviceStands self.old w
            → readings (λ v x. (⟦<dyn Meter as Meter>⟧ v).reading_of x) meters.new
            ≡ readings_after domain (tones_of domain jacks.now) w ticks
            (readings (λ v x. (⟦<dyn Meter as Meter>⟧ v).reading_of x) meters.old) }
        ensures played { (w : DeviceWorld) → DeviceStands self.old w → HoldPlayed domain (tones_of domain jacks.now) ticks w self.new.rows }
        ensures function { self.new.function ≡ self.old.function }
    {
        functions_are_sound(&self.function);
        sound_functions_are_small();
        interfaces_are_numbered();
        entities_have_channels();
        let count = ticks as usize;
        hold_inputs(&self.function, &self.wires, count, &mut self.rows);
        give_tones(jacks, domain, count, &mut self.rows);
        self.device_streams.take_rows(domain, ticks, &mut self.rows);
        self.graph.ticks_by(
            domain,
            count,
            &self.derived.jobs,
            rack,
            &mut self.rows,
            steps,
        );
        self.device_streams.put_rows(domain, ticks, &self.rows);
        hear_rows(self.derived.jacks(), &self.rows, domain, count, meters);
        keep_frames(
            &self.function,
            domain,
            count - 1,
            &self.rows,
            &mut self.wires,
        );
    }

    /// The frame of the last tick of an output jack; None exactly for ids of no output jack.
    pub fn played(&self, terminal: u8) -> Option<&Frame>
        ensures { (w : DeviceWorld) → DeviceStands self.now w → option_map (λ frame. frame.now.items) result ≡ played_at w terminal }
    {
        if self.plays(terminal) {
            self.wires.get(terminal)
        } else {
            None
        }
    }

    /// Makes `frame` what a terminal played at a tick among those that were done at once last, which counts from 0.
    pub fn read_played(&self, terminal: u8, tick: u32, frame: &mut Frame)
        requires { tick < 128 }
        ensures { frame.new.items ≡ samples_on (frames_at tick self.now.rows) terminal }
    {
        functions_are_sound(&self.function);
        read_frame(self.rows.get(terminal), tick as usize, frame);
    }

    /// The output jacks, in block order.
    pub fn output_jacks(&self) -> &[OutputJack]
        ensures { result.now ≡ jacks_of self.now.function.entities }
    {
        self.derived.jacks()
    }

    // Whether an id is of an output jack.
    fn plays(&self, id: u8) -> bool
        ensures { result ≡ is_output_jack (entity self.now.function.entities id) }
    {
        match self.function.find(id) {
            Some(index) => is_output_jack(&self.function.entities()[index]),
            None => false,
        }
    }
}
