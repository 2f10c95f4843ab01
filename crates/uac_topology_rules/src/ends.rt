// The rules on streaming interfaces, U12, U13 and U14.
ghost use Rattle.std.specs.Prelude.{◌≡◌, ◌<◌, ◌==◌, ◌&&◌, ◌||◌, not, false, nat_lt, if◌then◌else◌, length};
ghost use Rattle.uac_topology_rules.specs.Table.{at};
ghost use Rattle.uac_topology_rules.specs.Links as links;
ghost use Rattle.std.specs.List.{list_any};
ghost use Rattle.std.specs.Option.{option_map_or};
ghost use Rattle.uac_entities.specs.EntityInterfaces.{links_of};
ghost use Rattle.uac_topology_rules.specs.Rules as rules;
ghost use Rattle.uac_topology_rules.specs.RuleFaults.{of_interface, broken_ends};
ghost use Rattle.uac_topology_rules.specs.Domains.{IsDomains};
ghost use Rattle.uac_topology_rules.specs.RuleNumbers.{number};
ghost use Rattle.uac_topology_rules.specs.EndRules as ending;

use crate::domains::Domains;
use crate::fault::TopologyFault;
use crate::kinds::is_terminal;
use crate::known::Known;
use crate::rule::Rule;
use crate::shapes::entity_limit;
use crate::table::EntityTable;
use uac_descriptor::{Endpoint, EndpointBits};
use uac_entities::{DeclaredSetting, Setting, StreamInterface, USB_STREAMING, link_of};

/// The most streaming interfaces of a function, and the most settings of each (profile).
const MOST_STREAMS: usize = 8;

const MOST_SETTINGS: usize = 16;

/// The first fault by the rules U12 to U14.
#[tactic(auto, unfolding(crate::specs::RuleFaults::broken_ends))]
pub fn ends_fault(
    known: &Known,
    domains: &Domains,
    all: &[DeclaredSetting],
    streams: &[StreamInterface],
) -> Option<TopologyFault>
    requires { IsDomains known.now domains.now.clocks.items domains.now.counts.items }
    ensures { result ≡ broken_ends known.now all.now streams.now }
{
    if let Some(fault) = judge(Rule::WrongLink, known.table(), all, streams) {
        return Some(fault);
    }
    if let Some(fault) = judge(Rule::WrongEndpoints, known.table(), all, streams) {
        return Some(fault);
    }
    if let Some(fault) = entity_limit(known, domains) {
        return Some(fault);
    }
    judge(Rule::TooMany, known.table(), all, streams)
}

// The first streaming interface that breaks the rule.
fn judge(
    rule: Rule,
    table: &EntityTable,
    all: &[DeclaredSetting],
    streams: &[StreamInterface],
) -> Option<TopologyFault>
    ensures { result ≡ of_interface (number rule) streams.now (ending.breaks rule table.now all.now) }
{
    for (index, stream) in streams.iter().enumerate() {
        if breaks(rule, table, all, streams, index) {
            return Some(TopologyFault {
                rule: rule.number(),
                id: stream.number,
                interface: true,
            });
        }
    }
    None
}

fn breaks(
    rule: Rule,
    table: &EntityTable,
    all: &[DeclaredSetting],
    streams: &[StreamInterface],
    index: usize,
) -> bool
    requires { index < length streams.now }
    ensures { result ≡ ending.breaks rule table.now all.now streams.now index }
{
    match rule {
        Rule::WrongLink => breaks_u12(table, streams, index),
        Rule::WrongEndpoints => breaks_u13(all, streams, index),
        Rule::TooMany => exceeds(streams, index),
        Rule::ZeroId
        | Rule::RepeatedId
        | Rule::UnknownSource
        | Rule::SilentSource
        | Rule::UnknownClock
        | Rule::SignalCycle
        | Rule::ClockCycle
        | Rule::WrongCluster
        | Rule::WrongSize
        | Rule::UnequalPins
        | Rule::OtherClock => false,
    }
}

fn breaks_u12(table: &EntityTable, streams: &[StreamInterface], index: usize) -> bool
    requires { index < length streams.now }
    ensures { result ≡ rules.breaks_u12 table.now streams.now index }
{
    let earlier = &streams[..index];
    is_wrongly_linked(table, earlier, &streams[index])
}

// The links of the interface are not to one USB streaming terminal, or an earlier one has it.
fn is_wrongly_linked(
    table: &EntityTable,
    earlier: &[StreamInterface],
    stream: &StreamInterface,
) -> bool
    ensures { result ≡ (list_any (λ l. not (rules.is_usb table.now l && l == stream.now.terminal)) (links_of stream.now.settings)
        || (not (stream.now.terminal == 0) && list_any (λ d. d.terminal == stream.now.terminal) earlier.now)) }
{
    has_wrong_link(table, stream.settings.as_slice(), stream.terminal)
        || (stream.terminal != 0 && has_terminal(earlier, stream.terminal))
}

// A setting links to something else than this terminal, or it isn't one of USB streaming.
fn has_wrong_link(table: &EntityTable, settings: &[Setting], terminal: u8) -> bool
    ensures { result ≡ list_any (λ l. not (rules.is_usb table.now l && l == terminal)) (links_of settings.now) }
{
    for setting in settings {
        if is_wrong_link(table, link_of(setting), terminal) {
            return true;
        }
    }
    false
}

fn is_wrong_link(table: &EntityTable, link: Option<u8>, terminal: u8) -> bool
    ensures { result ≡ option_map_or (λ l. not (rules.is_usb table.now l && l == terminal)) link false }
{
    match link {
        Some(link) => !(is_usb(table, link) && link == terminal),
        None => false,
    }
}

// A terminal of USB streaming has this id.
#[tactic(auto, unfolding(crate::specs::Rules::is_usb))]
fn is_usb(table: &EntityTable, id: u8) -> bool
    ensures { result ≡ rules.is_usb table.now id }
{
    match table.find(id) {
        Some(index) => is_usb_terminal(table, index),
        None => false,
    }
}

fn has_terminal(streams: &[StreamInterface], terminal: u8) -> bool
    ensures { result ≡ list_any (λ s. s.terminal == terminal) streams.now }
{
    streams.iter().any(|stream| stream.terminal == terminal)
}

fn breaks_u13(all: &[DeclaredSetting], streams: &[StreamInterface], index: usize) -> bool
    requires { index < length streams.now }
    ensures { result ≡ rules.breaks_u13 all.now streams.now index }
{
    let stream = &streams[index];
    has_wrong_endpoints(all, stream.number, stream.out)
}

// A setting of the interface has not the endpoints that it may have.
fn has_wrong_endpoints(all: &[DeclaredSetting], number: u8, out: bool) -> bool
    ensures { result ≡ list_any (λ a. a.interface == number && rules.is_wrong out a) all.now }
{
    all.iter().any(|declared| declared.interface == number && is_wrong(out, declared))
}

#[tactic(auto, unfolding(crate::specs::Rules::is_wrong))]
fn is_wrong(out: bool, declared: &DeclaredSetting) -> bool
    ensures { result ≡ rules.is_wrong out declared.now }
{
    usize::from(declared.endpoint_count) != declared.endpoints
        || ((declared.setting.number == 0 && declared.endpoints != 0)
            || (is_wrong_first(out, &declared.setting.first)
                || is_wrong_second(out, &declared.setting.second)))
}

fn is_wrong_first(out: bool, endpoint: &Option<Endpoint>) -> bool
    ensures { result ≡ option_map_or (λ e. not (rules.carries_data out e)) endpoint.now false }
{
    match endpoint {
        Some(endpoint) => !carries_data(out, endpoint),
        None => false,
    }
}

fn is_wrong_second(out: bool, endpoint: &Option<Endpoint>) -> bool
    ensures { result ≡ option_map_or (λ e. not (rules.carries_feedback (not out) e)) endpoint.now false }
{
    match endpoint {
        Some(endpoint) => !carries_feedback(!out, endpoint),
        None => false,
    }
}

fn carries_data(out: bool, endpoint: &Endpoint) -> bool
    ensures { result ≡ rules.carries_data out endpoint.now }
{
    let bits = EndpointBits::of(endpoint.attributes);
    is_isochronous_to(out, endpoint) && (bits.is_data() || bits.is_implicit_feedback())
}

fn carries_feedback(out: bool, endpoint: &Endpoint) -> bool
    ensures { result ≡ rules.carries_feedback out endpoint.now }
{
    is_isochronous_to(out, endpoint) && EndpointBits::of(endpoint.attributes).is_feedback()
}

fn is_isochronous_to(out: bool, endpoint: &Endpoint) -> bool
    ensures { result ≡ rules.is_isochronous_to out endpoint.now }
{
    EndpointBits::of(endpoint.attributes).is_isochronous() && goes(out, endpoint.address)
}

// Whether the address is one of this direction.
fn goes(out: bool, address: u8) -> bool
    ensures { result ≡ (if out then nat_lt address 128 else not (nat_lt address 128)) }
{
    if out { address < 128 } else { address >= 128 }
}

fn exceeds(streams: &[StreamInterface], index: usize) -> bool
    requires { index < length streams.now }
    ensures { result ≡ rules.exceeds streams.now index }
{
    index >= MOST_STREAMS || has_too_many(&streams[index])
}

fn has_too_many(stream: &StreamInterface) -> bool
    ensures { result ≡ nat_lt 16 (length stream.now.settings) }
{
    stream.settings.as_slice().len() > MOST_SETTINGS
}

fn is_usb_terminal(table: &EntityTable, index: usize) -> bool
    requires { index < length table.now }
    ensures { result ≡ rules.is_usb_terminal (at table.now index) }
{
    let entity = table.at(index);
    is_terminal(entity.kind) && entity.terminal_type == USB_STREAMING
}
