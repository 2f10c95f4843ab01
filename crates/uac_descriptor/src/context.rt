// Where a block stands.
ghost use Rattle.std.specs.Prelude.{◌≡◌};
ghost use Rattle.uac_descriptor.specs.Contexts.{context_after, interface_context, is_audio};

use crate::block::Block;
use crate::classes::{is_audio_association, is_control_interface, is_streaming_interface};
use crate::standard::Interface;

/// Where a block stands, which decides how it is read: the latest interface before it (Audio Class 2.0, 4; profile:
/// what follows the association of another function counts as standing in a foreign interface).
#[derive(Clone, Copy, PartialEq, Eq, Debug)]
pub enum Context {
    /// In front of every interface.
    DeviceFront,
    /// In the control interface of an audio function of this version.
    ControlInterface,
    /// In a streaming interface of one.
    StreamingInterface,
    /// In any other interface, or after the association of another function.
    ForeignInterface,
}

impl Context {
    /// The context after a block that stands in this one.
    pub fn after(self, block: &Block) -> Context
        ensures { result ≡ context_after self block.now }
    {
        match block {
            Block::Interface(interface) => Context::of_interface(interface),
            Block::Association(association) => {
                if is_audio_association(association) {
                    self
                } else {
                    Context::ForeignInterface
                }
            }
            Block::Configuration(_)
            | Block::Endpoint(_)
            | Block::Header(_)
            | Block::InputTerminal(_)
            | Block::OutputTerminal(_)
            | Block::Mixer(_)
            | Block::Selector(_)
            | Block::Feature(_)
            | Block::Effect(_)
            | Block::ClockSource(_)
            | Block::ClockSelector(_)
            | Block::ClockMultiplier(_)
            | Block::General(_)
            | Block::TypeOne(_)
            | Block::Extra(_)
            | Block::ClassEndpoint(_)
            | Block::Foreign(_) => self,
        }
    }

    #[tactic(auto, unfolding(crate::specs::Contexts::interface_context))]
    fn of_interface(interface: &Interface) -> Context
        ensures { result ≡ interface_context interface.now }
    {
        if is_control_interface(interface) {
            Context::ControlInterface
        } else if is_streaming_interface(interface) {
            Context::StreamingInterface
        } else {
            Context::ForeignInterface
        }
    }

    /// Whether the context is a control interface or a streaming one of an audio function.
    pub fn is_audio(self) -> bool
        ensures { result ≡ is_audio self }
    {
        match self {
            Context::DeviceFront => false,
            Context::ControlInterface => true,
            Context::StreamingInterface => true,
            Context::ForeignInterface => false,
        }
    }
}
