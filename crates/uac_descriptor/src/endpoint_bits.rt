// The bits 0 to 5 of an endpoint's attributes, by name.
ghost use Rattle.std.specs.Prelude.{⊤, ◌≡◌, ◌==◌, [], ◌∷◌, codes};
ghost use Rattle.uac_descriptor.specs.Endpoints.{transfer_type, synchronization_type, usage_type};

use bitflags::{Flag, Flags, bitflag_items};

/// The bits 0 to 5 of an endpoint's attributes (USB 2.0, 9.6.6): two for the kind of transfer, two for
/// the synchronization, two for the usage.
#[derive(Clone, Copy, PartialEq, Eq, Debug)]
pub struct EndpointBits(u8);

bitflag_items! {
    impl EndpointBits: u8 {
        const ISOCHRONOUS = 0x01;
        const BULK = 0x02;
        const ASYNCHRONOUS = 0x04;
        const ADAPTIVE = 0x08;
        const FEEDBACK = 0x10;
        const IMPLICIT = 0x20;
    }
}

impl Flags for EndpointBits {
    type Bits = u8;

    ghost exact = { ⊤ };

    ghost table = { (codes "ISOCHRONOUS", 1) ∷ (codes "BULK", 2) ∷ (codes "ASYNCHRONOUS", 4) ∷ (codes "ADAPTIVE", 8) ∷
        (codes "FEEDBACK", 16) ∷ (codes "IMPLICIT", 32) ∷ [] };

    ghost set_of = { λ bits. bits.0 };

    fn flags<'a>() -> &'a [Flag<EndpointBits>] {
        EndpointBits::FLAGS
    }

    fn bits(&self) -> u8 {
        self.0
    }

    fn from_bits_retain(bits: u8) -> EndpointBits {
        EndpointBits(bits)
    }
}

impl EndpointBits {
    /// The bits of these attributes. Bits 6 and 7 are kept and belong to no name.
    pub fn of(attributes: u8) -> EndpointBits
        ensures { result.0 ≡ attributes }
    {
        EndpointBits(attributes)
    }

    /// Whether the transfers are isochronous: bits 1 and 0 are 01.
    #[tactic(auto, using(crate::proofs::EndpointsLemmas::isochronous))]
    pub fn is_isochronous(self) -> bool
        ensures { result ≡ (transfer_type self.0 == 1) }
    {
        let isochronous = self.contains(EndpointBits::ISOCHRONOUS);
        let bulk = self.contains(EndpointBits::BULK);
        isochronous & !bulk
    }

    /// Whether the endpoint is asynchronous: bits 3 and 2 are 01.
    #[tactic(auto, using(crate::proofs::EndpointsLemmas::asynchronous))]
    pub fn is_asynchronous(self) -> bool
        ensures { result ≡ (synchronization_type self.0 == 1) }
    {
        let asynchronous = self.contains(EndpointBits::ASYNCHRONOUS);
        let adaptive = self.contains(EndpointBits::ADAPTIVE);
        asynchronous & !adaptive
    }

    /// Whether an endpoint carries data alone: bits 5 and 4 are 00.
    #[tactic(auto, using(crate::proofs::EndpointsLemmas::data_alone))]
    pub fn is_data(self) -> bool
        ensures { result ≡ (usage_type self.0 == 0) }
    {
        let feedback = self.contains(EndpointBits::FEEDBACK);
        let implicit = self.contains(EndpointBits::IMPLICIT);
        !feedback & !implicit
    }

    /// Whether an endpoint carries feedback: bits 5 and 4 are 01.
    #[tactic(auto, using(crate::proofs::EndpointsLemmas::feedback_alone))]
    pub fn is_feedback(self) -> bool
        ensures { result ≡ (usage_type self.0 == 1) }
    {
        let feedback = self.contains(EndpointBits::FEEDBACK);
        let implicit = self.contains(EndpointBits::IMPLICIT);
        feedback & !implicit
    }

    /// Whether an endpoint carries data that is feedback too: bits 5 and 4 are 10.
    #[tactic(auto, using(crate::proofs::EndpointsLemmas::implicit_feedback))]
    pub fn is_implicit_feedback(self) -> bool
        ensures { result ≡ (usage_type self.0 == 2) }
    {
        let feedback = self.contains(EndpointBits::FEEDBACK);
        let implicit = self.contains(EndpointBits::IMPLICIT);
        implicit & !feedback
    }
}
