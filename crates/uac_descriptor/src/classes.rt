// The class codes of an audio function and of its interfaces, and which blocks have them.
ghost use Rattle.std.specs.Prelude.{◌≡◌};
ghost use Rattle.uac_descriptor.specs.Classes.{
  is_audio_association,
  is_control_interface,
  is_streaming_interface,
};

use crate::standard::{Association, Interface};

/// Audio Class 2.0, A.1: bFunctionClass; A.4: bInterfaceClass.
pub const AUDIO: u8 = 0x01;
/// Audio Class 2.0, A.5: bInterfaceSubClass of the control interface.
pub const AUDIOCONTROL: u8 = 0x01;
/// Audio Class 2.0, A.5: bInterfaceSubClass of a streaming interface.
pub const AUDIOSTREAMING: u8 = 0x02;
/// Audio Class 2.0, A.3: bFunctionProtocol; A.6: bInterfaceProtocol.
pub const IP_VERSION_02_00: u8 = 0x20;
/// Audio Class 2.0, 4.7.2: bcdADC of the header.
pub const VERSION_02_00: u16 = 0x0200;
/// USB 2.0, 9.6.1: the bytes of a device descriptor.
pub const DEVICE_LENGTH: usize = 18;

/// The association of an audio function of this version (Audio Class 2.0, 4.6).
#[tactic(auto, unfolding(crate::specs::Classes::is_audio_association))]
pub fn is_audio_association(association: &Association) -> bool
    ensures { result ≡ is_audio_association association.now }
{
    association.class == AUDIO && association.protocol == IP_VERSION_02_00
}

/// The control interface of an audio function of this version (Audio Class 2.0, 4.7.1).
#[tactic(auto, unfolding(crate::specs::Classes::is_control_interface))]
pub fn is_control_interface(interface: &Interface) -> bool
    ensures { result ≡ is_control_interface interface.now }
{
    interface.class == AUDIO
        && interface.subclass == AUDIOCONTROL
        && interface.protocol == IP_VERSION_02_00
}

/// A streaming interface of an audio function of this version (Audio Class 2.0, 4.9.1).
#[tactic(auto, unfolding(crate::specs::Classes::is_streaming_interface))]
pub fn is_streaming_interface(interface: &Interface) -> bool
    ensures { result ≡ is_streaming_interface interface.now }
{
    interface.class == AUDIO
        && interface.subclass == AUDIOSTREAMING
        && interface.protocol == IP_VERSION_02_00
}
