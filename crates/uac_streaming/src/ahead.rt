// The packets and reports of a microframe while the device's ticks wait.
ghost use Rattle.std.specs.Prelude.{◌≡◌, ◌≤◌, ◌<◌, ◌+◌, ◌↔◌, IsTrue, nat_le, ℕ, length, map};
ghost use Rattle.std.specs.List.{All, list_all};
ghost use Rattle.uac_host.specs.HostFields.{GivesSilence};
ghost use Rattle.uac_script.specs.Line.{phrase_mark};
ghost use Rattle.uac_device.specs.DeviceKept as devices;
ghost use Rattle.uac_device.specs.DeviceWorld.{DeviceWorld, feedback_in};
ghost use Rattle.uac_device.specs.DeviceWaits.{after_sent, feedback_later_in};
ghost use Rattle.uac_streaming.specs.StreamingWorld.{StreamingWorld, numbers_in, numbers_out};
ghost use Rattle.uac_streaming.specs.StreamingKept.{StreamingStands};
ghost use Rattle.uac_streaming.specs.StreamingWaits as spec;
ghost use Rattle.uac_streaming.specs.StreamingWaits.{after_reports_of, sent_after, sent_on};
ghost use Rattle.uac_device.specs.DeviceWaits.{SentAreThere};

use crate::streaming::Streaming;
use uac_device::Device;
use uac_script::{Mark, loses_feedback};

impl Streaming {
    /// Whether at most eight interfaces carry a stream from the device.
    pub fn has_few_ins(&self) -> bool
        ensures { (d : devices.DeviceFields) (w : StreamingWorld) → StreamingStands self.now d w
            → result ≡ nat_le (length (numbers_in w.device.function)) 8 }
    {
        self.ins.len() <= 8
    }

    /// Whether the host gives silence on every interface: no frames wait, and its tones are silent.
    pub fn is_silent(&self) -> bool
        ensures { IsTrue result ↔ All (λ l. GivesSilence l.track) self.now.host }
    {
        self.host.is_silent()
    }

    /// Whether all packets to the device of the next microframe fit its rings.
    pub fn all_fit(&self, device: &Device) -> bool
        ensures { (w : StreamingWorld) → StreamingStands self.now device.now w
            → result ≡ list_all (spec.fits w) (numbers_out w.device.function) }
    {
        self.outs
            .iter()
            .all(|interface| self.fits(device, *interface))
    }

    /// Whether the next packet of an interface to the device fits its ring, where it is due.
    fn fits(&self, device: &Device, interface: u8) -> bool
        ensures { (w : StreamingWorld) → StreamingStands self.now device.now w → result ≡ spec.fits w interface }
    {
        !device.due(interface) || device.takes(interface, self.host.bytes(interface))
    }

    /// Makes each number that of the frames that are sent after the packets of a microframe, when so many ticks wait and so many frames
    /// were sent before it: the first is that of the first interface from the device, and so on.
    pub fn send_later(&self, device: &Device, ticks: u32, sent: &mut [u32])
        requires ticks { ticks ≤ 128 }
        requires sent { All (λ m. m ≤ 2176) sent.old }
        ensures sent { (w : StreamingWorld) → StreamingStands self.now device.now w
            → sent.new ≡ sent_after (numbers_in w.device.function) ticks sent.old w.device }
        ensures few { All (λ m. m ≤ 2176) sent.new }
    {
        for at in 0..self.ins.len().min(sent.len()) {
            sent[at] = one_sent_after(device, self.ins[at], ticks, sent[at]);
        }
    }

    /// The frames that were sent of the interfaces from the device are gone: of the first one so many as the first number tells, and so on.
    pub fn drop_sent(&self, device: &mut Device, sent: &[u32])
        ensures stands { (w : StreamingWorld) → StreamingStands self.now device.old w
            → SentAreThere (sent_on (numbers_in w.device.function) sent.now) w.device
            → devices.DeviceStands device.new (after_sent (sent_on (numbers_in w.device.function) sent.now) w.device) }
        ensures function { device.new.function ≡ device.old.function }
    {
        for at in 0..self.ins.len().min(sent.len()) {
            device.drop_sent(self.ins[at], sent[at]);
        }
    }

    /// The feedback reports of a microframe, with these losses, when so many ticks wait: those of the device as it is when they are done.
    pub fn give_feedback_later(&mut self, device: &Device, ticks: u32, marks: &[Mark])
        ensures { (w : StreamingWorld) (later : DeviceWorld) → StreamingStands self.old device.now w
            → later.function ≡ w.device.function
            → ((interface : ℕ) → feedback_in later interface ≡ feedback_later_in w.device interface ticks)
            → StreamingStands self.new device.now (after_reports_of (map phrase_mark marks.now) later w) }
    {
        for at in 0..self.order.len() {
            let interface = self.order[at];
            self.give_report_later(device, interface, ticks, marks);
        }
    }

    /// The feedback report of an interface, where one is due.
    fn give_report_later(&mut self, device: &Device, interface: u8, ticks: u32, marks: &[Mark])
        ensures stands { (w : StreamingWorld) (later : DeviceWorld) → StreamingStands self.old device.now w
            → later.function ≡ w.device.function → feedback_in later interface ≡ feedback_later_in w.device interface ticks
            → StreamingStands self.new device.now (spec.after_report_of (map phrase_mark marks.now) later interface w) }
        ensures order { self.new.order ≡ self.old.order }
    {
        if let Some(value) = device.feedback_later(interface, ticks) {
            let lost = loses_feedback(marks, interface);
            self.bring_feedback(device.function(), interface, value, lost);
        }
    }
}

/// How many frames of an interface are sent after its packet, where that is due, when so many ticks wait and so many frames were sent before
/// it.
fn one_sent_after(device: &Device, interface: u8, ticks: u32, sent: u32) -> u32
    requires ticks { ticks ≤ 128 }
    requires sent { sent ≤ 2176 }
    ensures sent { (w : DeviceWorld) → devices.DeviceStands device.now w → result ≡ spec.one_sent_after interface ticks sent w }
    ensures few { result ≤ 2176 }
{
    if device.due(interface) {
        sent + device.frames_later(interface, ticks, sent)
    } else {
        sent
    }
}
