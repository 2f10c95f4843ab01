// Printing the settings of streaming interfaces.
ghost use Rattle.std.specs.Prelude.{◌≡◌, ◌≤◌, ◌++◌, length};
ghost use Rattle.std.specs.Option.{option_map};
ghost use Rattle.uac_alt.specs.AltStreams as streams;
ghost use Rattle.uac_edges.specs.Faults.{HasCause};
ghost use Rattle.uac_edges.specs.Writing.{Writes};
ghost use Rattle.uac_listing.specs.SettingLines.{direction_text, idle_line, interface_lines, number_text, running_line, setting_line};
ghost use Rattle.uac_listing.specs.SettingLines.{setting_lines, terminal_text, valid_text};

use uac_alt::packet_room;
use uac_edges::{Failed, Sink, TextLine, give_all};
use uac_request::is_valid;
use uac_store::Store;
use uac_topology::{Function, Setting, StreamInterface};

/// Writes a line for each setting of each streaming interface; a setting is valid where it can run under these values of the controls.
pub fn write_settings<K: Sink>(
    sink: &mut K,
    function: &Function,
    store: &Store,
) -> Result<(), Failed>
    ensures written { Writes (K.written sink.old) (K.written sink.new) result (setting_lines function.now store.now) }
    ensures cause { HasCause (K.faults sink.old) (K.faults sink.new) result }
{
    for stream in function.streams() {
        write_interface(sink, function, store, stream)?;
    }
    Ok(())
}

/// Writes a line for each setting of an interface.
fn write_interface<K: Sink>(
    sink: &mut K,
    function: &Function,
    store: &Store,
    stream: &StreamInterface,
) -> Result<(), Failed>
    ensures written { Writes (K.written sink.old) (K.written sink.new) result (interface_lines function.now store.now stream.now) }
    ensures cause { HasCause (K.faults sink.old) (K.faults sink.new) result }
{
    for setting in stream.settings.as_slice() {
        write_setting(sink, function, store, stream, setting)?;
    }
    Ok(())
}

/// Writes a setting's line.
fn write_setting<K: Sink>(
    sink: &mut K,
    function: &Function,
    store: &Store,
    stream: &StreamInterface,
    setting: &Setting,
) -> Result<(), Failed>
    ensures written { Writes (K.written sink.old) (K.written sink.new) result (setting_line function.now store.now stream.now setting.now) }
    ensures cause { HasCause (K.faults sink.old) (K.faults sink.new) result }
{
    if setting.number == 0 {
        return give_all(sink, idle_line(stream.number).as_bytes());
    }
    let valid = is_valid(function, store, stream, setting.number);
    give_all(sink, running_line(stream, setting, valid).as_bytes())
}

/// The line of setting 0.
#[tactic(auto, unfolding(crate::specs::SettingLines::idle_line))]
fn idle_line(interface: u8) -> TextLine<64>
    ensures { result ≡ idle_line interface }
{
    let mut line = TextLine::new();
    line.push(b"stream ");
    line.push_number(u64::from(interface));
    line.push(b" setting 0 idle\n");
    line
}

/// The line of a setting above 0.
#[tactic(auto, unfolding(crate::specs::SettingLines::running_line))]
fn running_line(stream: &StreamInterface, setting: &Setting, valid: bool) -> TextLine<320>
    ensures { result ≡ running_line stream.now setting.now valid }
{
    let mut line = TextLine::new();
    line.push(b"stream ");
    line.push_number(u64::from(stream.number));
    line.push(b" setting ");
    line.push_number(u64::from(setting.number));
    line.push(direction_text(stream.out));
    line.push(b" terminal ");
    line.push(terminal_text(stream.terminal).as_bytes());
    line.push(b" channels ");
    line.push(number_text(channels_of(setting)).as_bytes());
    line.push(b" subslot ");
    line.push(number_text(subslot_of(setting)).as_bytes());
    line.push(b" bits ");
    line.push(number_text(bits_of(setting)).as_bytes());
    line.push(b" packet ");
    line.push(number_text(packet_of(setting)).as_bytes());
    line.push(b" valid ");
    line.push(valid_text(valid));
    line.push(b"\n");
    line
}

fn channels_of(setting: &Setting) -> Option<u32>
    ensures { result ≡ option_map (λ g. g.channels) setting.now.general }
{
    match &setting.general {
        Some(general) => Some(u32::from(general.channels)),
        None => None,
    }
}

fn subslot_of(setting: &Setting) -> Option<u32>
    ensures { result ≡ option_map (λ f. f.subslot) setting.now.format }
{
    match &setting.format {
        Some(format) => Some(u32::from(format.subslot)),
        None => None,
    }
}

fn bits_of(setting: &Setting) -> Option<u32>
    ensures { result ≡ option_map (λ f. f.bits) setting.now.format }
{
    match &setting.format {
        Some(format) => Some(u32::from(format.bits)),
        None => None,
    }
}

// The bytes that the first endpoint carries in a microframe.
fn packet_of(setting: &Setting) -> Option<u32>
    ensures { result ≡ option_map streams.packet_room setting.now.first }
{
    match &setting.first {
        Some(endpoint) => Some(packet_room(endpoint)),
        None => None,
    }
}

fn direction_text(out: bool) -> &'static [u8]
    ensures text { result.now ≡ direction_text out }
    ensures short { length result.now ≤ 4 }
{
    if out { b" out" } else { b" in" }
}

fn valid_text(valid: bool) -> &'static [u8]
    ensures text { result.now ≡ valid_text valid }
    ensures short { length result.now ≤ 3 }
{
    if valid { b"yes" } else { b"no" }
}

/// A number, or a dash where there is none.
fn number_text(number: Option<u32>) -> TextLine<24>
    ensures { result ≡ number_text number }
{
    let mut text = TextLine::new();
    match number {
        Some(number) => text.push_number(u64::from(number)),
        None => text.push(b"-"),
    }
    text
}

/// A terminal's id, or a dash where no terminal is named.
fn terminal_text(id: u8) -> TextLine<24>
    ensures { result ≡ terminal_text id }
{
    if id == 0 {
        number_text(None)
    } else {
        number_text(Some(u32::from(id)))
    }
}
