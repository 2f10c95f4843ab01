// The rules one after the other.
ghost use Rattle.std.specs.Prelude.{IfOk, IfErr};
ghost use Rattle.uac_descriptor.specs.WellFormed.{AreWellFormed};
ghost use Rattle.uac_topology.specs.Topology.{first_fault_of, IsSound, IsFunctionOf, IsStopAt};
ghost use Rattle.uac_topology.specs.Judged.{IsJudged};

use crate::configuration::{control_interface_of, total_of};
use crate::function::Function;
use std::alloc::Global;
use uac_descriptor::{Block, NoMemory};
use uac_entities::{declared_settings, entities_of, streaming_interfaces_of};
use uac_topology_rules::{
    EntityTable, Known, TopologyFault, domains_of, ends_fault, names_fault, shapes_fault, walk,
};

/// Why there is no function.
#[derive(Clone, Copy, PartialEq, Eq, Debug)]
pub enum CheckStop {
    /// The least broken rule, with its first offender in block order.
    Fault(TopologyFault),
    NoMemory,
}

impl From<NoMemory> for CheckStop {
    ghost use Rattle.std.specs.Prelude.{◌≡◌};
    ghost use Rattle.uac_topology.specs.declared.soundness.CheckStop.TheVariants as stops;

    ghost from_gives = { λ _ e. e ≡ stops.NoMemory };

    fn from(_refused: NoMemory) -> CheckStop {
        CheckStop::NoMemory
    }
}

/// What the rules say of the blocks.
enum Judged {
    Sound(Function),
    Broken(TopologyFault),
}

/// The audio function of the blocks, exactly where every rule holds; else the least broken rule with its first
/// offender in block order, or want of memory. The blocks that a reader gives are well-formed
/// (`uac_grammar_rules::laws::sentences_are_well_formed`), and of others `uac_grammar_rules::are_well_formed` tells.
pub fn check(alloc: Global, blocks: &[Block]) -> Result<Function, CheckStop>
    requires { AreWellFormed blocks.now }
    ensures sound { IfOk result (λ function. IsSound blocks.now × IsFunctionOf function blocks.now) }
    ensures broken { IfErr result (λ stop. IsStopAt stop (first_fault_of blocks.now)) }
{
    match judge(alloc, blocks)? {
        Judged::Sound(function) => Ok(function),
        Judged::Broken(fault) => Err(CheckStop::Fault(fault)),
    }
}

fn judge(alloc: Global, blocks: &[Block]) -> Result<Judged, NoMemory>
    requires { AreWellFormed blocks.now }
    ensures { IfOk result (IsJudged blocks.now) }
{
    let table = EntityTable::new(alloc, entities_of(alloc, blocks)?)?;
    if let Some(fault) = names_fault(&table) {
        return Ok(Judged::Broken(fault));
    }
    let walked = walk(alloc, &table)?;
    if let Some(fault) = walked.fault {
        return Ok(Judged::Broken(fault));
    }
    let known = Known::new(alloc, table, walked)?;
    if let Some(fault) = shapes_fault(&known) {
        return Ok(Judged::Broken(fault));
    }
    let all = declared_settings(alloc, blocks)?;
    let streams = streaming_interfaces_of(alloc, known.table().as_slice(), &all)?;
    let domains = domains_of(alloc, known.table().as_slice())?;
    if let Some(fault) = ends_fault(&known, &domains, &all, &streams) {
        return Ok(Judged::Broken(fault));
    }
    Ok(Judged::Sound(Function {
        table: known.into_table(),
        domains: domains.into_clocks(),
        streams,
        control_interface: control_interface_of(blocks),
        total: total_of(blocks),
    }))
}
