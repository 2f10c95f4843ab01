// The blocks of USB 2.0, chapter 9, and the interface association of its supplement.
use crate::lists::ByteList;
use std::marker::Model;

/// The configuration descriptor (USB 2.0, 9.6.3).
#[derive(Drop)]
pub struct Configuration {
    /// wTotalLength: the bytes of the configuration and of all blocks after it.
    pub total: u16,
    /// bNumInterfaces
    pub interfaces: u8,
    /// bConfigurationValue
    pub value: u8,
    /// iConfiguration: the index of its name.
    pub name: u8,
    /// bmAttributes
    pub attributes: u8,
    /// bMaxPower, in steps of 2 mA.
    pub power: u8,
}

/// The interface association descriptor (USB 2.0, its supplement on interface associations).
#[derive(Drop)]
pub struct Association {
    /// bFirstInterface
    pub first: u8,
    /// bInterfaceCount
    pub count: u8,
    /// bFunctionClass
    pub class: u8,
    /// bFunctionSubClass
    pub subclass: u8,
    /// bFunctionProtocol
    pub protocol: u8,
    /// iFunction
    pub name: u8,
}

/// The interface descriptor (USB 2.0, 9.6.5).
#[derive(Drop)]
pub struct Interface {
    /// bInterfaceNumber
    pub number: u8,
    /// bAlternateSetting
    pub setting: u8,
    /// bNumEndpoints
    pub endpoints: u8,
    /// bInterfaceClass
    pub class: u8,
    /// bInterfaceSubClass
    pub subclass: u8,
    /// bInterfaceProtocol
    pub protocol: u8,
    /// iInterface
    pub name: u8,
}

/// The endpoint descriptor (USB 2.0, 9.6.6).
#[derive(Drop)]
pub struct Endpoint {
    /// bEndpointAddress: bit 7 is 1 for IN.
    pub address: u8,
    /// bmAttributes, whose bits `EndpointBits` names.
    pub attributes: u8,
    /// wMaxPacketSize: bits 10..0 the size in bytes, bits 12..11 the additional transactions.
    pub max_packet: u16,
    /// bInterval: the period is `2^(interval - 1)` microframes.
    pub interval: u8,
}

impl Endpoint {
    ghost use Rattle.std.specs.Prelude.{◌≡◌};
    ghost use Rattle.uac_descriptor.specs.Endpoints.{packet_size, additional_transactions};

    /// The bytes of one transaction: bits 10 to 0 of wMaxPacketSize.
    pub fn packet_size(&self) -> u16
        ensures { result ≡ packet_size self.now.max_packet }
    {
        self.max_packet % 2048
    }

    /// The transactions that a microframe has besides the first: bits 12 and 11 of wMaxPacketSize.
    pub fn additional_transactions(&self) -> u16
        ensures { result ≡ additional_transactions self.now.max_packet }
    {
        self.max_packet / 2048 % 4
    }
}

/// A block that no row of the layouts reads, whole: of another type, or in an interface that is
/// not this function's.
#[derive(Drop)]
pub struct Foreign {
    pub bytes: ByteList,
}

impl Model for Foreign {
    ghost use Rattle.std.specs.Prelude.{List, ℕ};

    ghost Value = { List ℕ };

    ghost use Rattle.uac_descriptor.specs.Layout.{IsForeign};

    ghost view = { λ block. block.bytes };

    ghost invariant = { λ block. IsForeign block.bytes };
}
