// A block is written as its spelling: one function for each row, in the order of the layouts.
ghost use Rattle.std.specs.Prelude.{◌≡◌, ◌++◌, OnOk, OnErr};
ghost use Rattle.uac_descriptor.specs.Spelling.{spelling};

/// Fields of more than one byte, and a block of varying length as it grows.
mod control;
mod piece;
mod standard;
mod streaming;

use crate::block::Block;
use crate::lists::{ByteList, NoMemory};

impl Block {
    /// Appends the block's bytes to `out`. After `NoMemory`, `out` is unchanged.
    pub fn write(&self, out: &mut ByteList) -> Result<(), NoMemory>
        ensures appended { OnOk result (out.new ≡ out.old ++ spelling self.now) }
        ensures unchanged { OnErr result (out.new ≡ out.old) }
    {
        match self {
            Block::Configuration(block) => standard::configuration(block, out),
            Block::Association(block) => standard::association(block, out),
            Block::Interface(block) => standard::interface(block, out),
            Block::Endpoint(block) => standard::endpoint(block, out),
            Block::Header(block) => control::header(block, out),
            Block::InputTerminal(block) => control::input_terminal(block, out),
            Block::OutputTerminal(block) => control::output_terminal(block, out),
            Block::Mixer(block) => control::mixer(block, out),
            Block::Selector(block) => control::selector(block, out),
            Block::Feature(block) => control::feature(block, out),
            Block::Effect(block) => control::effect(block, out),
            Block::ClockSource(block) => control::clock_source(block, out),
            Block::ClockSelector(block) => control::clock_selector(block, out),
            Block::ClockMultiplier(block) => control::clock_multiplier(block, out),
            Block::General(block) => streaming::general(block, out),
            Block::TypeOne(block) => streaming::type_one(block, out),
            Block::Extra(block) => streaming::extra(block, out),
            Block::ClassEndpoint(block) => streaming::class_endpoint(block, out),
            Block::Foreign(block) => standard::foreign(block, out),
        }
    }
}
