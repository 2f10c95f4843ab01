// The bytes of the script's descriptor.
ghost use Rattle.std.specs.Prelude.{◌≡◌, ◌+◌, ◌*◌, ◌/◌, ◌%◌, ◌<◌, ◌≤◌, ◌++◌, length, flat_map};
ghost use Rattle.uac_descriptor.specs.Spelling.{spelling};
ghost use Rattle.uac_gen.specs.GeneratedDescriptor.{unit_at, units_of, front_blocks, descriptor_of};

use uac_edges::TextLine;

/// The most bytes of a descriptor here.
pub type Bytes = TextLine<1024>;

/// The stream's blocks: its idle setting, and one of two channels of 24 bits with its feedback.
const STREAM: [u8; 62] = [
    9, 4, 1, 0, 0, 1, 2, 32, 0, // the idle setting
    9, 4, 1, 1, 2, 1, 2, 32, 0, // setting 1
    16, 36, 1, 2, 5, 1, 1, 0, 0, 0, 2, 3, 0, 0, 0, 0, // general
    6, 36, 2, 1, 3, 24, // type one
    7, 5, 1, 5, 150, 0, 1, // the frames' endpoint
    8, 37, 1, 0, 0, 0, 0, 0, // its class block
    7, 5, 129, 17, 4, 0, 4, // the feedback's endpoint
];

// The unit at this distance from unit 3.
#[tactic(auto, using(crate::proofs::GeneratedDescriptorLemmas::feature_bytes, crate::proofs::GeneratedDescriptorLemmas::mixer_bytes))]
fn push_unit(bytes: &mut Bytes, distance: u8)
    requires few { distance < 30 }
    requires room { length bytes.old + 18 ≤ 1024 }
    ensures unit { bytes.new ≡ bytes.old ++ spelling (unit_at distance) }
    ensures len { length bytes.new ≤ length bytes.old + 18 }
{
    let id = distance + 3;
    let source = distance + 2;
    if distance % 2 == 0 {
        bytes.push(&[
            18, 36, 6, id, source, 3, 0, 0, 0, 12, 0, 0, 0, 12, 0, 0, 0, 0,
        ]);
    } else {
        bytes.push(&[
            16, 36, 4, id, 2, source, source, 2, 3, 0, 0, 0, 0, 255, 0, 0,
        ]);
    }
}

// The units in a row.
fn push_units(bytes: &mut Bytes, count: u8)
    requires few { count ≤ 30 }
    requires room { length bytes.old + 18 * count ≤ 1024 }
    ensures units { bytes.new ≡ bytes.old ++ flat_map spelling (units_of count) }
    ensures len { length bytes.new ≤ length bytes.old + 18 * count }
{
    let mut distance = 0;
    while distance < count {
        push_unit(bytes, distance);
        distance += 1;
    }
}

// What stands in front of the units, with the totals of the configuration and of the header.
#[tactic(auto, unfolding(uac_descriptor::specs::Spelling::spelling))]
fn front(total: u16, control: u16) -> Bytes
    ensures front { result ≡ flat_map spelling (front_blocks total control) }
    ensures len { length result ≡ 60 }
{
    let (total_low, total_high) = (low(total), high(total));
    let (control_low, control_high) = (low(control), high(control));
    let mut bytes = TextLine::new();
    bytes.push(&[9, 2, total_low, total_high, 2, 1, 0, 128, 50]);
    bytes.push(&[8, 11, 0, 2, 1, 0, 32, 0]);
    bytes.push(&[9, 4, 0, 0, 0, 1, 1, 32, 0]);
    bytes.push(&[9, 36, 1, 0, 2, 4, control_low, control_high, 0]);
    bytes.push(&[8, 36, 10, 1, 3, 7, 0, 0]);
    bytes.push(&[17, 36, 2, 2, 1, 1, 0, 1, 2, 3, 0, 0, 0, 0, 0, 0, 0]);
    bytes
}

/// The descriptor with so many units.
pub fn descriptor(count: u8) -> Bytes
    requires { count ≤ 30 }
    ensures { result ≡ descriptor_of count }
{
    // Two units in a row have 34 bytes, a feature alone has 18.
    let control = 46 + 17 * u16::from(count) + u16::from(count % 2);
    let mut bytes = front(88 + control, control);
    push_units(&mut bytes, count);
    bytes.push(&[12, 36, 3, count + 3, 1, 3, 0, count + 2, 1, 0, 0, 0]);
    bytes.push(&STREAM);
    bytes
}

// The low byte of a field of two bytes.
fn low(field: u16) -> u8
    ensures { result ≡ field % 256 }
{
    (field % 256) as u8
}

// The high byte of a field of two bytes.
fn high(field: u16) -> u8
    ensures { result ≡ field / 256 }
{
    (field / 256) as u8
}
