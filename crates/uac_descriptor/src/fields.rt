// The values of an endpoint's and of a format's fields that the standards don't allow.
ghost use Rattle.std.specs.Prelude.{◌≡◌};
ghost use Rattle.uac_descriptor.specs.BlockFields.{is_isochronous, is_no_format, is_no_high_speed};

use crate::endpoint_bits::EndpointBits;
use crate::standard::Endpoint;
use crate::streaming::TypeOne;

/// Whether bits 1..0 of bmAttributes are 01 (USB 2.0, 9.6.6).
pub fn is_isochronous(endpoint: &Endpoint) -> bool
    ensures { result ≡ is_isochronous endpoint.now }
{
    EndpointBits::of(endpoint.attributes).is_isochronous()
}

/// Whether high speed does not allow an isochronous endpoint with these fields (USB 2.0, 9.6.6): no interval of 1 to 16,
/// additional transactions 11, or more than 1024 bytes.
#[tactic(auto, unfolding(crate::specs::BlockFields::is_no_high_speed))]
pub fn is_no_high_speed(endpoint: &Endpoint) -> bool
    ensures { result ≡ is_no_high_speed endpoint.now }
{
    endpoint.interval < 1
        || 16 < endpoint.interval
        || endpoint.additional_transactions() == 3
        || 1024 < endpoint.packet_size()
}

/// Whether a format is no Type I format (Audio Data Formats 2.0, 2.3.1.6): not 1 to 4 bytes a sample, or not 1 bit up to all
/// of theirs.
#[tactic(auto, unfolding(crate::specs::BlockFields::is_no_format))]
pub fn is_no_format(format: &TypeOne) -> bool
    ensures { result ≡ is_no_format format.now }
{
    format.subslot < 1 || 4 < format.subslot || format.bits < 1 || 8 * format.subslot < format.bits
}
