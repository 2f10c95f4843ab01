// The setup packet of a control transfer.
ghost use Rattle.std.specs.Prelude.{◌≡◌, ◌∷◌, []};
ghost use Rattle.byteorder.specs.Endian.{little_number};
ghost use Rattle.uac_request.specs.Requests as spec;
ghost use Rattle.uac_request.specs.Requests.{high, low, setup_of};

use byteorder::{ByteOrder, LittleEndian};
use uac_store::Key;

/// The setup packet of a control transfer (USB 2.0, 9.3).
#[derive(Clone, Copy, PartialEq, Eq, Debug)]
pub struct Setup {
    /// bmRequestType
    pub request_type: u8,
    /// bRequest
    pub request: u8,
    /// wValue
    pub value: u16,
    /// wIndex
    pub index: u16,
    /// wLength
    pub length: u16,
}

impl Setup {
    /// The packet of eight bytes: numbers of two bytes have the low one first (USB 2.0, 9.3).
    #[tactic(auto, using(crate::proofs::EndianLemmas::first_two))]
    pub fn read(bytes: [u8; 8]) -> Setup
        ensures { result ≡ setup_of bytes }
    {
        Setup {
            request_type: bytes[0],
            request: bytes[1],
            value: LittleEndian::read_u16(&bytes[2..4]),
            index: LittleEndian::read_u16(&bytes[4..6]),
            length: LittleEndian::read_u16(&bytes[6..8]),
        }
    }
}

/// The number of two bytes.
pub fn two_byte_number(low: u8, high: u8) -> u16
    ensures { result ≡ little_number 2 (low ∷ high ∷ []) }
{
    LittleEndian::read_u16(&[low, high])
}

/// The high byte of a number: a control's selector in wValue, an entity in wIndex (Audio Class 2.0, 5.2.2).
pub(crate) fn high_byte(number: u16) -> u8
    ensures { result ≡ high number }
{
    (number / 256) as u8
}

/// The low byte of a number: a control's channel in wValue, the interface in wIndex (Audio Class 2.0, 5.2.2).
pub fn low_byte(number: u16) -> u8
    ensures { result ≡ low number }
{
    (number % 256) as u8
}

/// The key of the control that wValue and wIndex name (Audio Class 2.0, 5.2.2).
pub fn key_named(setup: &Setup) -> Key
    ensures { result ≡ spec.key_named setup.now }
{
    Key {
        entity: high_byte(setup.index),
        selector: high_byte(setup.value),
        channel: low_byte(setup.value),
    }
}
