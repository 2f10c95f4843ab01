// How far in the order of the descriptor the blocks have come.
ghost use Rattle.std.specs.Prelude.{◌≡◌};
ghost use Rattle.uac_grammar_rules.specs.OrderStages.{begin_part, next_stage};

use crate::roles::BlockRole;

/// How far in the order of the descriptor the blocks have come.
#[derive(Clone, Copy, Debug)]
pub enum OrderStage {
    /// Before the first block.
    Start,
    /// After the device descriptor: the configuration is due.
    Due,
    /// After the configuration and blocks of other types.
    Opening,
    /// In a foreign part before the audio association.
    Before,
    /// After the audio association: the control interface is due.
    Announced,
    /// After the control interface: its header is due.
    Headless,
    /// After the header, in the list of entities.
    Listing,
    /// After the list of entities, in blocks of other types.
    Quiet,
    /// After a streaming interface and blocks of other types.
    Setting,
    /// After a general block, with no Type I format yet.
    Formats,
    /// After a Type I format.
    Formatted,
    /// After the first endpoint of a setting.
    FirstEndpoint,
    /// After the class block of the first endpoint.
    FirstDone,
    /// After the second endpoint of a setting.
    SecondEndpoint,
    /// At the end of an interface, in blocks of other types.
    Closing,
    /// In a foreign part after the control interface.
    ForeignAfter,
}

impl OrderStage {
    /// Where a block of this role leads; None exactly where the order does not allow it.
    pub fn after(self, role: BlockRole) -> Option<OrderStage>
        ensures { result ≡ next_stage self role }
    {
        match self {
            OrderStage::Start => from_start(role),
            OrderStage::Due => from_due(role),
            OrderStage::Opening => from_opening(role),
            OrderStage::Before => from_before(role),
            OrderStage::Announced => from_announced(role),
            OrderStage::Headless => from_headless(role),
            OrderStage::Listing => from_listing(role),
            OrderStage::Quiet => from_quiet(role),
            OrderStage::Setting => from_setting(role),
            OrderStage::Formats => from_formats(role),
            OrderStage::Formatted => from_formatted(role),
            OrderStage::FirstEndpoint => from_first_endpoint(role),
            OrderStage::FirstDone => from_first_done(role),
            OrderStage::SecondEndpoint => from_second_endpoint(role),
            OrderStage::Closing => from_closing(role),
            OrderStage::ForeignAfter => from_foreign_after(role),
        }
    }
}

/// The device descriptor comes first, or the configuration without one.
fn from_start(role: BlockRole) -> Option<OrderStage>
    ensures { result ≡ next_stage OrderStage.Start role }
{
    match role {
        BlockRole::Device => Some(OrderStage::Due),
        BlockRole::Configuration => Some(OrderStage::Opening),
        _ => None,
    }
}

/// The configuration comes next.
fn from_due(role: BlockRole) -> Option<OrderStage>
    ensures { result ≡ next_stage OrderStage.Due role }
{
    match role {
        BlockRole::Configuration => Some(OrderStage::Opening),
        _ => None,
    }
}

/// Blocks of other types may follow, then a foreign part or the audio association.
fn from_opening(role: BlockRole) -> Option<OrderStage>
    ensures { result ≡ next_stage OrderStage.Opening role }
{
    match role {
        BlockRole::Other => Some(OrderStage::Opening),
        BlockRole::ForeignAssociation | BlockRole::ForeignInterface => Some(OrderStage::Before),
        BlockRole::AudioAssociation => Some(OrderStage::Announced),
        _ => None,
    }
}

/// A foreign part takes any block but a configuration and an audio interface, until the audio
/// association comes.
fn from_before(role: BlockRole) -> Option<OrderStage>
    ensures { result ≡ next_stage OrderStage.Before role }
{
    match role {
        BlockRole::Configuration | BlockRole::ControlInterface | BlockRole::StreamingInterface =>
            None,
        BlockRole::AudioAssociation => Some(OrderStage::Announced),
        _ => Some(OrderStage::Before),
    }
}

/// The control interface comes next.
fn from_announced(role: BlockRole) -> Option<OrderStage>
    ensures { result ≡ next_stage OrderStage.Announced role }
{
    match role {
        BlockRole::ControlInterface => Some(OrderStage::Headless),
        _ => None,
    }
}

/// The header comes next.
fn from_headless(role: BlockRole) -> Option<OrderStage>
    ensures { result ≡ next_stage OrderStage.Headless role }
{
    match role {
        BlockRole::Header => Some(OrderStage::Listing),
        _ => None,
    }
}

/// The list of entities goes on, or ends as where it has ended.
fn from_listing(role: BlockRole) -> Option<OrderStage>
    ensures { result ≡ next_stage OrderStage.Listing role }
{
    match role {
        BlockRole::Entity => Some(OrderStage::Listing),
        _ => from_quiet(role),
    }
}

/// The control interface may have an endpoint.
fn from_quiet(role: BlockRole) -> Option<OrderStage>
    ensures { result ≡ next_stage OrderStage.Quiet role }
{
    match role {
        BlockRole::Other => Some(OrderStage::Quiet),
        BlockRole::Endpoint => Some(OrderStage::Closing),
        _ => begin_part(role),
    }
}

/// A general block may follow.
fn from_setting(role: BlockRole) -> Option<OrderStage>
    ensures { result ≡ next_stage OrderStage.Setting role }
{
    match role {
        BlockRole::Other => Some(OrderStage::Setting),
        BlockRole::General => Some(OrderStage::Formats),
        _ => begin_part(role),
    }
}

/// A Type I format may follow; else the setting goes on as after one.
fn from_formats(role: BlockRole) -> Option<OrderStage>
    ensures { result ≡ next_stage OrderStage.Formats role }
{
    match role {
        BlockRole::Extra => Some(OrderStage::Formats),
        BlockRole::TypeOne => Some(OrderStage::Formatted),
        _ => from_formatted(role),
    }
}

/// Other format blocks may follow, then an endpoint.
fn from_formatted(role: BlockRole) -> Option<OrderStage>
    ensures { result ≡ next_stage OrderStage.Formatted role }
{
    match role {
        BlockRole::Extra => Some(OrderStage::Formatted),
        BlockRole::Endpoint => Some(OrderStage::FirstEndpoint),
        _ => from_closing(role),
    }
}

/// A class block may follow the first endpoint.
fn from_first_endpoint(role: BlockRole) -> Option<OrderStage>
    ensures { result ≡ next_stage OrderStage.FirstEndpoint role }
{
    match role {
        BlockRole::ClassEndpoint => Some(OrderStage::FirstDone),
        _ => from_first_done(role),
    }
}

/// A second endpoint may follow.
fn from_first_done(role: BlockRole) -> Option<OrderStage>
    ensures { result ≡ next_stage OrderStage.FirstDone role }
{
    match role {
        BlockRole::Endpoint => Some(OrderStage::SecondEndpoint),
        _ => from_closing(role),
    }
}

/// A class block may follow the second endpoint.
fn from_second_endpoint(role: BlockRole) -> Option<OrderStage>
    ensures { result ≡ next_stage OrderStage.SecondEndpoint role }
{
    match role {
        BlockRole::ClassEndpoint => Some(OrderStage::Closing),
        _ => from_closing(role),
    }
}

/// The interface ends, with no more than blocks of other types.
fn from_closing(role: BlockRole) -> Option<OrderStage>
    ensures { result ≡ next_stage OrderStage.Closing role }
{
    match role {
        BlockRole::Other => Some(OrderStage::Closing),
        _ => begin_part(role),
    }
}

/// A foreign part takes any block but a configuration, an audio association and a control
/// interface, until a streaming interface comes.
fn from_foreign_after(role: BlockRole) -> Option<OrderStage>
    ensures { result ≡ next_stage OrderStage.ForeignAfter role }
{
    match role {
        BlockRole::Configuration | BlockRole::AudioAssociation | BlockRole::ControlInterface =>
            None,
        BlockRole::StreamingInterface => Some(OrderStage::Setting),
        _ => Some(OrderStage::ForeignAfter),
    }
}

/// After the control interface's part, another part may begin.
fn begin_part(role: BlockRole) -> Option<OrderStage>
    ensures { result ≡ begin_part role }
{
    match role {
        BlockRole::StreamingInterface => Some(OrderStage::Setting),
        BlockRole::ForeignAssociation | BlockRole::ForeignInterface => Some(
            OrderStage::ForeignAfter,
        ),
        BlockRole::Device
        | BlockRole::Configuration
        | BlockRole::AudioAssociation
        | BlockRole::ControlInterface
        | BlockRole::Endpoint
        | BlockRole::Header
        | BlockRole::Entity
        | BlockRole::General
        | BlockRole::TypeOne
        | BlockRole::Extra
        | BlockRole::ClassEndpoint
        | BlockRole::Other
        | BlockRole::Stray
        | BlockRole::UnknownSubtype => None,
    }
}
