// What each part of the state becomes after a block.
ghost use Rattle.std.specs.Prelude.{◌≡◌, ◌≤◌, length};
ghost use Rattle.uac_grammar_rules.specs.BlockRole.{is_listed, role_of};
ghost use Rattle.uac_grammar_rules.specs.Grammar.{
  continues,
  end_after,
  is_in_turn,
  latest_after,
  listing_after,
  used_after,
};

use crate::roles::BlockRole;
use crate::states::{FURTHEST, Latest, Listing};
use uac_descriptor::classes::{is_control_interface, is_streaming_interface};
use uac_descriptor::{Block, Interface};

/// Where the configuration's total ends, once the configuration was read.
pub fn end_after(end: Option<u32>, place: u32, block: &Block) -> Option<u32>
    requires { place ≤ FURTHEST }
    ensures { result ≡ end_after end place block.now }
{
    match (end, block) {
        (Some(end), _) => Some(end),
        (None, Block::Configuration(configuration)) => Some(place + configuration.total as u32),
        (None, _) => None,
    }
}

/// Whether the list of entities has a block of this role.
pub fn is_listed(role: BlockRole) -> bool
    ensures { result ≡ is_listed role }
{
    matches!(role, BlockRole::Entity | BlockRole::UnknownSubtype)
}

/// How far the list of entities has come after a block of this role.
pub fn listing_after(listing: Listing, place: u32, block: &Block, role: BlockRole) -> Listing
    requires fits { place ≤ FURTHEST }
    requires role { role ≡ role_of block.now }
    ensures { result ≡ listing_after listing place block.now }
{
    match (listing, block) {
        (Listing::Awaited, Block::Header(header)) => Listing::Open(place + header.total as u32),
        (Listing::Awaited, _) => Listing::Awaited,
        (Listing::Open(end), _) => {
            if is_listed(role) {
                Listing::Open(end)
            } else {
                Listing::Closed
            }
        }
        (Listing::Closed, _) => Listing::Closed,
    }
}

/// Marks the number of a control or streaming interface as used.
pub fn use_number(used: &mut [bool; 256], block: &Block)
    ensures { used.new ≡ used_after used.old block.now }
{
    if let Block::Interface(interface) = block {
        if is_control_interface(interface) || is_streaming_interface(interface) {
            used[interface.number as usize] = true;
        }
    }
}

/// The latest interface, if it is a streaming interface.
pub fn latest_after(latest: Option<Latest>, block: &Block) -> Option<Latest>
    ensures { result ≡ latest_after latest block.now }
{
    let Block::Interface(interface) = block else {
        return latest;
    };
    if is_streaming_interface(interface) {
        Some(Latest {
            number: interface.number,
            setting: interface.setting,
        })
    } else {
        None
    }
}

/// Whether the interface is the next setting of the latest one.
fn continues(latest: Option<Latest>, interface: &Interface) -> bool
    ensures { result ≡ continues latest interface.now }
{
    match latest {
        None => false,
        Some(latest) => {
            interface.number == latest.number
                && interface.setting as u16 == latest.setting as u16 + 1
        }
    }
}

/// Whether a streaming interface has a new number in setting 0, and else continues the latest setting.
#[tactic(auto, unfolding(crate::specs::Grammar::is_in_turn))]
pub fn is_in_turn(used: &[bool; 256], latest: Option<Latest>, block: &Block) -> bool
    ensures { result ≡ is_in_turn used.now latest block.now }
{
    let Block::Interface(interface) = block else {
        return true;
    };
    if !is_streaming_interface(interface) {
        true
    } else if interface.setting == 0 {
        !used[interface.number as usize]
    } else {
        continues(latest, interface)
    }
}
