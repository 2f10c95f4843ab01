// One block of a configuration descriptor.
use crate::control::{
    ClockMultiplier, ClockSelector, ClockSource, Effect, Feature, Header, InputTerminal, Mixer,
    OutputTerminal, Selector,
};
use crate::standard::{Association, Configuration, Endpoint, Foreign, Interface};
use crate::streaming::{ClassEndpoint, Extra, General, TypeOne};

/// One block of a configuration descriptor, by the row of the layouts that reads it. Each variant
/// holds a struct of its name; the counts of pins, of mixer bytes and of control words are the lengths
/// of its lists. Every value is spelt by at most 255 bytes.
#[derive(Drop)]
pub enum Block {
    Configuration(Configuration),
    Association(Association),
    Interface(Interface),
    Endpoint(Endpoint),
    Header(Header),
    InputTerminal(InputTerminal),
    OutputTerminal(OutputTerminal),
    Mixer(Mixer),
    Selector(Selector),
    Feature(Feature),
    Effect(Effect),
    ClockSource(ClockSource),
    ClockSelector(ClockSelector),
    ClockMultiplier(ClockMultiplier),
    General(General),
    TypeOne(TypeOne),
    Extra(Extra),
    ClassEndpoint(ClassEndpoint),
    Foreign(Foreign),
}
