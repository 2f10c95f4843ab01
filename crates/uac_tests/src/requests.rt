// The answers of a headset, byte by byte, with ample memory.
use crate::blocks::{
    clock, control, endpoint, feature, function_of, input, output, pcm, push, push_format,
    streaming,
};
use std::alloc::{AllocError, Global};
use std::marker::Model;
use std::test::Fail;
use uac_alt::Settings;
use uac_descriptor::{Block, Configuration};
use uac_request::laws::each_interface_starts_with_a_setting;
use uac_request::{Answer, Setup, answer};
use uac_store::Store;
use uac_topology::Function;

/// A function with its controls and its settings.
#[derive(Drop)]
struct Headset {
    function: Function,
    store: Store,
    settings: Settings,
}

impl Model for Headset {
    ghost use Rattle.uac_store.specs.StoreControls.{IsStoreOf};
    ghost use Rattle.uac_topology.specs.Function.{FunctionFields};
    ghost use Rattle.uac_request.specs.Requests.{AreSettingsOf};

    ghost Value = { FunctionFields };

    ghost view = { λ h. h.function };

    ghost invariant = { λ h. IsStoreOf h.function.entities h.store × AreSettingsOf h.function h.settings };
}

impl Headset {
    fn new(alloc: Global, most: u16) -> Result<Headset, AllocError> {
        let function = function(alloc, most)?;
        each_interface_starts_with_a_setting();
        let settings = Settings::new(&function);
        match Store::new(alloc, &function) {
            Ok(store) => Ok(Headset {
                function,
                store,
                settings,
            }),
            Err(_) => Err(AllocError),
        }
    }

    fn ask(&mut self, packet: [u8; 8], sent: &[u8]) -> Answer {
        let setup = Setup::read(packet);
        answer(
            &self.function,
            &mut self.store,
            &mut self.settings,
            &setup,
            sent,
        )
    }
}

// A clock 1, the path 2, 3, 4 of two channels to the ears, and the path 5, 6, 7 of one channel from the microphone.
fn push_entities(alloc: Global, blocks: &mut Vec<Block>) -> Result<(), AllocError> {
    push(blocks, clock(1, 3))?;
    push(blocks, input(2, 0x0101, 2, 3))?;
    let ears = feature(alloc, 3, 2, &[3, 12, 12])?;
    push(blocks, ears)?;
    push(blocks, output(4, 0x0301, 3))?;
    push(blocks, input(5, 0x0201, 1, 0))?;
    let mouth = feature(alloc, 6, 5, &[3, 12])?;
    push(blocks, mouth)?;
    push(blocks, output(7, 0x0101, 6))
}

// The format of a setting whose two controls can be read.
fn push_readable_format(
    blocks: &mut Vec<Block>,
    link: u8,
    channels: u8,
    subslot: u8,
) -> Result<(), AllocError> {
    let mut general = pcm(link, channels);
    general.controls = 5;
    push_format(blocks, general, subslot)
}

// The streaming interface 1 to the device, with an endpoint of so many bytes, and 2 from it.
fn push_streams(blocks: &mut Vec<Block>, most: u16) -> Result<(), AllocError> {
    push(blocks, streaming(1, 0, 0))?;
    push(blocks, streaming(1, 1, 2))?;
    push_readable_format(blocks, 2, 2, 3)?;
    push(blocks, endpoint(0x01, 0x05, most, 1))?;
    push(blocks, endpoint(0x81, 0x11, 4, 4))?;
    push(blocks, streaming(2, 0, 0))?;
    push(blocks, streaming(2, 1, 1))?;
    push_readable_format(blocks, 7, 1, 2)?;
    push(blocks, endpoint(0x82, 0x05, 50, 1))
}

fn function(alloc: Global, most: u16) -> Result<Function, AllocError> {
    let mut blocks = Vec::new(alloc);
    let configuration = Configuration {
        total: 275,
        interfaces: 3,
        value: 1,
        name: 0,
        attributes: 0x80,
        power: 50,
    };
    push(&mut blocks, Block::Configuration(configuration))?;
    push(&mut blocks, control(0))?;
    push_entities(alloc, &mut blocks)?;
    push_streams(&mut blocks, most)?;
    function_of(alloc, blocks.as_slice())
}

fn has_bytes(answer: &Answer, bytes: &[u8]) -> bool {
    match answer {
        Answer::Bytes(reply) => reply.as_slice() == bytes,
        _ => false,
    }
}

fn is_done(answer: &Answer) -> bool {
    matches!(answer, Answer::Done)
}

fn stalls(answer: &Answer, rule: u8) -> bool {
    match answer {
        Answer::Stall(number) => *number == rule,
        _ => false,
    }
}

#[test]
fn rules_by_number(rt: HostRuntime) -> Result<(), Fail> {
    let mut headset = Headset::new(rt.alloc(), 150)?;
    let table: [([u8; 8], &[u8], u8); 12] = [
        ([0xc0, 0, 0, 0, 0, 0, 0, 0], &[], 1),
        ([0xa1, 1, 1, 2, 9, 3, 2, 0], &[], 2),
        ([0xa1, 1, 1, 2, 0, 9, 2, 0], &[], 3),
        // A mute has no range.
        ([0xa1, 2, 0, 1, 0, 3, 2, 0], &[], 4),
        // The master's volume isn't declared, and there is no third channel.
        ([0xa1, 1, 0, 2, 0, 3, 2, 0], &[], 5),
        ([0xa1, 1, 3, 2, 0, 3, 2, 0], &[], 6),
        // The validity of a clock.
        ([0x21, 1, 0, 2, 0, 1, 1, 0], &[1], 7),
        ([0x21, 1, 1, 2, 0, 3, 2, 0], &[0], 8),
        // A quarter of a decibel, and a frequency past 31 bits.
        ([0x21, 1, 1, 2, 0, 3, 2, 0], &[0x40, 0], 9),
        ([0x21, 1, 0, 1, 0, 1, 4, 0], &[0x80, 0xbb, 0, 0x80], 9),
        ([0x01, 0x0b, 2, 0, 1, 0, 0, 0], &[], 11),
        // The number of an interface has two bytes.
        ([0x81, 0x0a, 0, 0, 1, 1, 1, 0], &[], 2),
    ];
    for (packet, sent, rule) in table {
        assert!(rt; stalls(&headset.ask(packet, sent), rule), "Q{rule}");
    }
    Ok(())
}

#[test]
fn bytes_by_control(rt: HostRuntime) -> Result<(), Fail> {
    let mut headset = Headset::new(rt.alloc(), 150)?;
    let table: [([u8; 8], &[u8]); 9] = [
        // A volume's range, cut and whole.
        ([0xa1, 2, 1, 2, 0, 3, 2, 0], &[2, 0]),
        ([0xa1, 2, 1, 2, 0, 3, 8, 0], &[2, 0, 0, 0xa0, 0, 0xdf, 0, 1]),
        (
            [0xa1, 2, 1, 2, 0, 3, 14, 0],
            &[2, 0, 0, 0xa0, 0, 0xdf, 0, 1, 0, 0xe0, 0, 0x0c, 0x80, 0],
        ),
        // The frequency, the validity, and a connector.
        ([0xa1, 1, 0, 1, 0, 1, 4, 0], &[0x80, 0xbb, 0, 0]),
        ([0xa1, 1, 0, 2, 0, 1, 1, 0], &[1]),
        ([0xa1, 1, 1, 2, 0, 3, 2, 0], &[0, 0]),
        // The active setting and the valid ones.
        ([0xa1, 1, 0, 1, 1, 0, 1, 0], &[0]),
        ([0xa1, 1, 0, 2, 1, 0, 2, 0], &[1, 3]),
        ([0x81, 0x0a, 0, 0, 1, 0, 1, 0], &[0]),
    ];
    for (packet, bytes) in table {
        assert!(rt; has_bytes(&headset.ask(packet, &[]), bytes));
    }
    match headset.ask([0x80, 6, 0, 2, 0, 0, 9, 0], &[]) {
        Answer::Descriptor { from, to } => assert_eq!(rt; (from, to), (0, 9)),
        _ => assert!(rt; false),
    }
    Ok(())
}

#[test]
fn what_is_set_is_held(rt: HostRuntime) -> Result<(), Fail> {
    let mut headset = Headset::new(rt.alloc(), 150)?;
    // Six decibels down on the left.
    assert!(rt; is_done(&headset.ask([0x21, 1, 1, 2, 0, 3, 2, 0], &[0, 0xfa])));
    assert!(rt; has_bytes(&headset.ask([0xa1, 1, 1, 2, 0, 3, 2, 0], &[]), &[0, 0xfa]));
    // Half a decibel up.
    assert!(rt; is_done(&headset.ask([0x21, 1, 1, 2, 0, 3, 2, 0], &[0x80, 0])));
    assert!(rt; has_bytes(&headset.ask([0xa1, 1, 1, 2, 0, 3, 2, 0], &[]), &[0x80, 0]));
    // The stream runs, and its clock stays.
    assert!(rt; is_done(&headset.ask([0x01, 0x0b, 1, 0, 1, 0, 0, 0], &[])));
    assert!(rt; has_bytes(&headset.ask([0xa1, 1, 0, 1, 1, 0, 1, 0], &[]), &[1]));
    assert!(rt;
        stalls(
            &headset.ask([0x21, 1, 0, 1, 0, 1, 4, 0], &[0x44, 0xac, 0, 0]),
            10
        )
    );
    assert!(rt; is_done(&headset.ask([0x21, 1, 0, 1, 0, 1, 4, 0], &[0x80, 0xbb, 0, 0])));
    Ok(())
}

#[test]
fn packet_that_is_too_small(rt: HostRuntime) -> Result<(), Fail> {
    let mut headset = Headset::new(rt.alloc(), 144)?;
    assert!(rt; is_done(&headset.ask([0x21, 1, 0, 1, 0, 1, 4, 0], &[0, 0xee, 2, 0])));
    assert!(rt; stalls(&headset.ask([0x01, 0x0b, 1, 0, 1, 0, 0, 0], &[]), 12));
    assert!(rt; has_bytes(&headset.ask([0xa1, 1, 0, 2, 1, 0, 2, 0], &[]), &[1, 1]));
    Ok(())
}
