// The lines of a mixer's elements, and of a headset's entities.
use std::alloc::{AllocError, Global};
use std::test::Fail;
use uac_descriptor::{ByteList, WordList};
use uac_edges::MemorySink;
use uac_entities::{Cluster, Entity, EntityKind};
use uac_listing::{write_elements, write_entities};
use uac_mixer::{Element, ElementKind};
use uac_store::Key;

// The volume of a feature's first channel, which a host may set.
const VOLUME: Element = Element {
    key: Key {
        entity: 3,
        selector: 2,
        channel: 1,
    },
    kind: ElementKind::Volume,
    writable: true,
    value: Some(-256),
};

// The mute of all its channels, which a host may only read.
const MUTE: Element = Element {
    key: Key {
        entity: 3,
        selector: 1,
        channel: 0,
    },
    kind: ElementKind::Mute,
    writable: false,
    value: Some(0),
};

#[test]
fn elements_are_printed(rt: HostRuntime) -> Result<(), Fail> {
    let never = WordList::from_vec(vec![in rt.alloc()]?);
    let mut sink = MemorySink::new(rt.alloc(), 64, 4096, never)?;
    assert_eq!(rt; write_elements(&mut sink, &[VOLUME, MUTE]), Ok(()));
    assert_eq!(rt;
        sink.bytes_written(),
        b"volume.3.1 rw -256\nmute.3.0 ro 0\n".as_slice()
    );
    Ok(())
}

// An entity without controls.
fn entity(
    alloc: Global,
    id: u8,
    kind: EntityKind,
    channels: u8,
    sources: &[u8],
    clock: u8,
) -> Result<Entity, AllocError> {
    Ok(Entity {
        id,
        kind,
        terminal_type: 0,
        sources: ByteList::from_vec(Vec::from_slice(alloc, sources)?),
        clock,
        cluster: Cluster {
            channels,
            locations: 0,
            names: 0,
        },
        controls: WordList::from_vec(vec![in alloc]?),
        mix_bits: ByteList::from_vec(vec![in alloc]?),
        attributes: 0,
    })
}

// A headset's clock, input terminal and feature, and a mixer of two of its signals.
#[test]
fn entities_are_printed(rt: HostRuntime) -> Result<(), Fail> {
    let alloc = rt.alloc();
    for (id, kind, channels, sources, clock, text) in [
        (
            1,
            EntityKind::ClockSource,
            0,
            b"".as_slice(),
            0,
            "entity 1 clock_source channels - sources - clock -\n",
        ),
        (
            2,
            EntityKind::InputTerminal,
            2,
            b"".as_slice(),
            1,
            "entity 2 input_terminal channels 2 sources - clock 1\n",
        ),
        (
            3,
            EntityKind::Feature,
            2,
            b"\x02".as_slice(),
            0,
            "entity 3 feature channels 2 sources 2 clock -\n",
        ),
        (
            8,
            EntityKind::Mixer,
            3,
            b"\x02\x06".as_slice(),
            0,
            "entity 8 mixer channels 3 sources 2,6 clock -\n",
        ),
    ] {
        let never = WordList::from_vec(vec![in alloc]?);
        let mut sink = MemorySink::new(alloc, 64, 4096, never)?;
        let entities = [entity(alloc, id, kind, channels, sources, clock)?];
        assert_eq!(rt; write_entities(&mut sink, &entities), Ok(()));
        assert_eq!(rt; sink.bytes_written(), text.as_bytes());
    }
    Ok(())
}
