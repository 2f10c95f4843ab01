// Blocks that several tests name, each by the numbers in which they differ, and a list of no bytes.
use std::alloc::Global;
use uac_descriptor::{Block, ByteList, Configuration, Header, InputTerminal, Interface};

/// A list of no bytes, to which blocks are written.
pub(crate) fn nothing(alloc: Global) -> ByteList {
    ByteList::from_vec(Vec::new(alloc))
}

/// The first configuration, which draws 100 mA of the bus.
pub(crate) fn configuration(total: u16, interfaces: u8) -> Block {
    Block::Configuration(Configuration {
        total,
        interfaces,
        value: 1,
        name: 0,
        attributes: 0x80,
        power: 0x32,
    })
}

/// The setting 0 of an audio interface, without endpoints.
pub(crate) fn interface(number: u8, subclass: u8) -> Block {
    Block::Interface(Interface {
        number,
        setting: 0,
        endpoints: 0,
        class: 1,
        subclass,
        protocol: 0x20,
        name: 0,
    })
}

/// The header of a control interface whose list has so many bytes.
pub(crate) fn header(total: u16) -> Block {
    Block::Header(Header {
        version: 0x0200,
        category: 4,
        total,
        controls: 0,
    })
}

/// A stereo USB terminal 2 under clock 1.
pub(crate) fn usb_input() -> Block {
    Block::InputTerminal(InputTerminal {
        id: 2,
        terminal_type: 0x0101,
        assoc: 0,
        clock: 1,
        channels: 2,
        locations: 3,
        names: 0,
        controls: 0,
        name: 0,
    })
}
