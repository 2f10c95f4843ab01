// What the blocks so far leave to be remembered.
use crate::stages::OrderStage;
use uac_descriptor::Context;

/// The bytes of a device descriptor and of the longest configuration: no block that breaks no rule ends after this place.
pub const FURTHEST: u32 = 18 + 65535;

/// A setting of a streaming interface.
#[derive(Clone, Copy, Debug)]
pub struct Latest {
    pub number: u8,
    pub setting: u8,
}

/// How far the list that the header of the control interface announces has come.
#[derive(Clone, Copy, Debug)]
pub enum Listing {
    /// No header was read.
    Awaited,
    /// The header and entities were read; its total ends at this place.
    Open(u32),
    /// Another block was read after them.
    Closed,
}

/// What the blocks so far leave to be remembered, however many they are.
#[derive(Clone, Copy, Debug)]
pub struct State {
    /// Where the next block stands.
    pub context: Context,
    /// How far in the order the blocks have come.
    pub stage: OrderStage,
    /// Which numbers the control interface and the streaming interfaces so far have.
    pub used: [bool; 256],
    /// The latest interface, if it is a streaming interface.
    pub latest: Option<Latest>,
    /// The place at which the configuration's total ends, once the configuration was read.
    pub end: Option<u32>,
    pub listing: Listing,
}

impl State {
    ghost use Rattle.std.specs.Prelude.{◌≡◌};
    ghost use Rattle.uac_grammar_rules.specs.Grammar.{start};

    /// The state before the first block.
    #[tactic(auto, unfolding(crate::specs::Grammar::start))]
    pub fn start() -> State
        ensures { result ≡ start }
    {
        State {
            context: Context::DeviceFront,
            stage: OrderStage::Start,
            used: [false; 256],
            latest: None,
            end: None,
            listing: Listing::Awaited,
        }
    }
}
