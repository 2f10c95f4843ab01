// The rules G5 to G9, each by itself, and the least one that is broken.
ghost use Rattle.std.specs.Prelude.{◌≡◌, ◌≤◌, [], ◌∷◌, MatchResult, Some, None};
ghost use Rattle.uac_grammar_rules.specs.OrderStages.{is_before_association, may_end};
ghost use Rattle.uac_grammar_rules.specs.Grammar.{
  comes_again,
  ends_before,
  ends_after,
  ends_list_early,
  is_announced,
  is_association,
  is_audio_interface,
  is_control,
  is_due,
  is_headless,
  is_listing,
  is_past_control,
  is_unknown,
  lacks_association,
  least,
  list_end,
  lists_unknown,
  rule_at_end,
  rule_broken,
  state_after,
};

use crate::roles::BlockRole;
use crate::stages::OrderStage;
use crate::states::{FURTHEST, Listing, State};
use crate::turns::{end_after, is_in_turn, is_listed, latest_after, listing_after, use_number};
use crate::values::has_wrong_value;
use uac_descriptor::Block;

impl State {
    /// Judges a block of `size` bytes at `place`: this becomes the state after it, unless the block breaks a rule. It answers the least
    /// rule of G4 to G9 that the block breaks.
    #[tactic(auto, unfolding(crate::specs::Grammar::rule_broken, crate::specs::Grammar::state_after, crate::specs::Grammar::passes_total, crate::specs::Grammar::passes_list, crate::specs::Grammar::is_out_of_order, crate::specs::Grammar::is_refused))]
    pub fn judge(&mut self, place: u32, size: u8, block: &Block) -> Result<(), u8>
        requires { place ≤ FURTHEST }
        ensures { MatchResult result
            (λ _. (rule_broken self.old place size block.now ≡ None) × (self.new ≡ state_after self.old place block.now))
            (λ rule. (rule_broken self.old place size block.now ≡ Some rule) × (self.new ≡ self.old)) }
    {
        if has_wrong_value(self.context, block) {
            return Err(4);
        }
        let role = BlockRole::of(block);
        let past = place + size as u32;
        let end = end_after(self.end, place, block);
        let listing = listing_after(self.listing, place, block, role);
        if ends_before(end, past)
            || ends_before(list_end(listing), past)
            || ends_list_early(self.listing, place, role)
        {
            return Err(5);
        }
        if let Some(rule) = rule_named(self.stage, role) {
            return Err(rule);
        }
        let Some(stage) = self.stage.after(role) else {
            return Err(6);
        };
        if !is_in_turn(&self.used, self.latest, block) {
            return Err(6);
        }
        self.stage = stage;
        self.end = end;
        self.listing = listing;
        self.context = self.context.after(block);
        self.latest = latest_after(self.latest, block);
        use_number(&mut self.used, block);
        Ok(())
    }

    /// The least rule that is broken where the input ends at `place`, with no bytes left.
    #[tactic(auto, unfolding(crate::specs::Grammar::rule_at_end))]
    pub fn rule_at_end(&self, place: u32) -> Option<u8>
        ensures { result ≡ rule_at_end self.now place }
    {
        if is_due(self.stage) {
            Some(1)
        } else if ends_after(self.end, place) || ends_after(list_end(self.listing), place) {
            Some(5)
        } else if is_headless(self.stage) {
            Some(6)
        } else if !may_end(self.stage) {
            Some(7)
        } else {
            None
        }
    }
}

/// A total that is known ends before this place.
fn ends_before(end: Option<u32>, place: u32) -> bool
    ensures { result ≡ ends_before end place }
{
    match end {
        Some(end) => end < place,
        None => false,
    }
}

/// A total that is known ends after this place.
fn ends_after(end: Option<u32>, place: u32) -> bool
    ensures { result ≡ ends_after end place }
{
    match end {
        Some(end) => place < end,
        None => false,
    }
}

/// The place where the list of entities is to end.
fn list_end(listing: Listing) -> Option<u32>
    ensures { result ≡ list_end listing }
{
    match listing {
        Listing::Open(end) => Some(end),
        Listing::Awaited | Listing::Closed => None,
    }
}

/// G5: the list of entities ended at this place, before the header's total.
#[tactic(auto, unfolding(crate::specs::Grammar::ends_list_early))]
fn ends_list_early(listing: Listing, place: u32, role: BlockRole) -> bool
    ensures { result ≡ ends_list_early listing place role }
{
    !is_listed(role) && ends_after(list_end(listing), place)
}

/// The rule of G7 to G9 that names a block of this role at this stage.
fn rule_named(stage: OrderStage, role: BlockRole) -> Option<u8>
    ensures { result ≡ least ((7, lacks_association stage role) ∷ (8, lists_unknown stage role) ∷ (9, comes_again stage role) ∷ []) }
{
    if lacks_association(stage, role) {
        Some(7)
    } else if lists_unknown(stage, role) {
        Some(8)
    } else if comes_again(stage, role) {
        Some(9)
    } else {
        None
    }
}

/// G7: the audio association is missing, or the control interface after it.
#[tactic(auto, unfolding(crate::specs::Grammar::lacks_association))]
fn lacks_association(stage: OrderStage, role: BlockRole) -> bool
    ensures { result ≡ lacks_association stage role }
{
    is_before_association(stage) && is_audio_interface(role)
        || is_announced(stage) && !is_control(role)
}

/// G8: a class block of an unknown subtype in the list of entities.
#[tactic(auto, unfolding(crate::specs::Grammar::lists_unknown))]
fn lists_unknown(stage: OrderStage, role: BlockRole) -> bool
    ensures { result ≡ lists_unknown stage role }
{
    is_listing(stage) && is_unknown(role)
}

/// G9: a second audio association or a second control interface.
#[tactic(auto, unfolding(crate::specs::Grammar::comes_again))]
fn comes_again(stage: OrderStage, role: BlockRole) -> bool
    ensures { result ≡ comes_again stage role }
{
    !is_before_association(stage) && is_association(role)
        || is_past_control(stage) && is_control(role)
}

/// The audio association has not come yet.
fn is_before_association(stage: OrderStage) -> bool
    ensures { result ≡ is_before_association stage }
{
    matches!(
        stage,
        OrderStage::Start | OrderStage::Due | OrderStage::Opening | OrderStage::Before
    )
}

/// The configuration is due.
fn is_due(stage: OrderStage) -> bool
    ensures { result ≡ is_due stage }
{
    matches!(stage, OrderStage::Start | OrderStage::Due)
}

/// The control interface is due.
fn is_announced(stage: OrderStage) -> bool
    ensures { result ≡ is_announced stage }
{
    matches!(stage, OrderStage::Announced)
}

/// The control interface was read.
fn is_past_control(stage: OrderStage) -> bool
    ensures { result ≡ is_past_control stage }
{
    !is_before_association(stage) && !is_announced(stage)
}

/// The header is due.
fn is_headless(stage: OrderStage) -> bool
    ensures { result ≡ is_headless stage }
{
    matches!(stage, OrderStage::Headless)
}

/// In the list of entities.
fn is_listing(stage: OrderStage) -> bool
    ensures { result ≡ is_listing stage }
{
    matches!(stage, OrderStage::Listing)
}

/// The input may end here.
fn may_end(stage: OrderStage) -> bool
    ensures { result ≡ may_end stage }
{
    !matches!(
        stage,
        OrderStage::Start
            | OrderStage::Due
            | OrderStage::Opening
            | OrderStage::Before
            | OrderStage::Announced
            | OrderStage::Headless
    )
}

/// A control interface or a streaming one.
pub(crate) fn is_audio_interface(role: BlockRole) -> bool
    ensures { result ≡ is_audio_interface role }
{
    matches!(
        role,
        BlockRole::ControlInterface | BlockRole::StreamingInterface
    )
}

pub(crate) fn is_control(role: BlockRole) -> bool
    ensures { result ≡ is_control role }
{
    matches!(role, BlockRole::ControlInterface)
}

fn is_unknown(role: BlockRole) -> bool
    ensures { result ≡ is_unknown role }
{
    matches!(role, BlockRole::UnknownSubtype)
}

fn is_association(role: BlockRole) -> bool
    ensures { result ≡ is_association role }
{
    matches!(role, BlockRole::AudioAssociation)
}
