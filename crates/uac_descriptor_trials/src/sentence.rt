// The shortest descriptor, block by block.
use crate::blocks::{configuration, header, interface};
use std::test::Fail;
use uac_descriptor::{Association, Block};
use uac_grammar_rules::{FURTHEST, State};

/// The bytes of each block of the shortest descriptor, and the block.
fn shortest() -> [(u8, Block); 4] {
    [
        (9, configuration(35, 1)),
        (
            8,
            Block::Association(Association {
                first: 0,
                count: 1,
                class: 1,
                subclass: 0,
                protocol: 0x20,
                name: 0,
            }),
        ),
        (9, interface(0, 1)),
        (9, header(9)),
    ]
}

#[test]
fn the_shortest_descriptor_breaks_no_rule(rt: HostRuntime) -> Result<(), Fail> {
    let mut state = State::start();
    let mut place: u32 = 0;
    assert_eq!(rt; state.rule_at_end(place), Some(1));
    for (size, block) in shortest() {
        assert!(rt; place <= FURTHEST);
        assert_eq!(rt; state.judge(place, size, &block), Ok(()));
        place += size as u32;
    }
    assert_eq!(rt; place, 35);
    assert_eq!(rt; state.rule_at_end(place), None);
    Ok(())
}
