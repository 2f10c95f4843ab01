// A small function, and one whose output terminal names no entity, with ample memory.
use crate::blocks::{configuration, interface, usb_input};
use std::alloc::{AllocError, Global};
use std::test::Fail;
use uac_descriptor::{Block, ClockSource, OutputTerminal};
use uac_grammar_rules::are_well_formed;
use uac_topology::{CheckStop, Function, TopologyFault, check};

fn push(blocks: &mut Vec<Block>, block: Block) -> Result<(), AllocError> {
    match blocks.push(block) {
        Ok(()) => Ok(()),
        Err(_) => Err(AllocError),
    }
}

// A USB terminal 2 under clock 1 that feeds a jack 3, and the streaming interface 7.
fn blocks(alloc: Global, source: u8) -> Result<Vec<Block>, AllocError> {
    let mut blocks = Vec::new(alloc);
    push(&mut blocks, configuration(77, 2))?;
    push(&mut blocks, interface(4, 1))?;
    push(
        &mut blocks,
        Block::ClockSource(ClockSource {
            id: 1,
            attributes: 3,
            controls: 7,
            assoc: 0,
            name: 0,
        }),
    )?;
    push(&mut blocks, usb_input())?;
    push(
        &mut blocks,
        Block::OutputTerminal(OutputTerminal {
            id: 3,
            terminal_type: 0x0301,
            assoc: 0,
            source,
            clock: 1,
            controls: 0,
            name: 0,
        }),
    )?;
    push(&mut blocks, interface(7, 2))?;
    Ok(blocks)
}

// What `check` says of well-formed blocks.
fn judge_blocks(
    alloc: Global,
    blocks: &[Block],
) -> Result<Result<Function, CheckStop>, AllocError> {
    if !are_well_formed(blocks) {
        return Err(AllocError);
    }
    Ok(check(alloc, blocks))
}

#[test]
fn tells_the_parts_of_a_small_function(rt: HostRuntime) -> Result<(), Fail> {
    let blocks = blocks(rt.alloc(), 2)?;
    match judge_blocks(rt.alloc(), blocks.as_slice())? {
        Ok(function) => {
            assert_eq!(rt; function.entities().len(), 3);
            assert_eq!(rt; function.entities()[2].cluster.channels, 2);
            assert_eq!(rt; function.find(3), Some(2));
            assert_eq!(rt; function.find(9), None);
            assert!(rt; function.entity(3).is_some() && function.entity(9).is_none());
            assert!(rt; function.interface(7).is_some() && function.interface(4).is_none());
            assert_eq!(rt; function.domains(), [1].as_slice());
            assert_eq!(rt; function.streams().len(), 1);
            assert_eq!(rt; function.stream_at(7), Some(0));
            assert_eq!(rt; function.stream_at(4), None);
            assert_eq!(rt; function.control_interface(), 4);
            assert_eq!(rt; function.total(), 77);
        }
        Err(_) => assert!(rt; false),
    }
    Ok(())
}

#[test]
fn tells_the_terminal_that_names_no_entity(rt: HostRuntime) -> Result<(), Fail> {
    let blocks = blocks(rt.alloc(), 9)?;
    match judge_blocks(rt.alloc(), blocks.as_slice())? {
        Ok(_) => assert!(rt; false),
        Err(stop) => assert_eq!(rt;
            stop,
            CheckStop::Fault(TopologyFault {
                rule: 3,
                id: 3,
                interface: false
            })
        ),
    }
    Ok(())
}
