// Streaming interfaces and their settings.
ghost use Rattle.std.specs.Prelude.{◌≡◌, ◌==◌, if◌then◌else◌, Some, None};
ghost use Rattle.std.specs.List.{list_any};

use std::marker::Model;
use uac_descriptor::{Endpoint, General, TypeOne};

/// One alternate setting of a streaming interface (USB 2.0, 9.6.5; Audio Class 2.0, 4.9).
#[derive(Drop)]
pub struct Setting {
    pub number: u8,
    pub general: Option<General>,
    pub format: Option<TypeOne>,
    /// The endpoint of the data.
    pub first: Option<Endpoint>,
    /// The endpoint of the feedback.
    pub second: Option<Endpoint>,
}

/// The settings of an interface, in block order.
#[derive(Drop)]
pub struct SettingList {
    items: Vec<Setting>,
}

impl Model for SettingList {
    ghost use Rattle.std.specs.Prelude.{List};
    ghost use Rattle.uac_entities.specs.declared.stream.Setting.{Setting};

    ghost Value = { List Setting };

    ghost view = { λ list. list.items.items };
}

impl SettingList {
    /// The list of these settings. It takes no memory.
    pub fn from_vec(items: Vec<Setting>) -> SettingList
        ensures { result ≡ items.items }
    {
        SettingList { items }
    }

    /// The settings, lent.
    pub fn as_slice(&self) -> &[Setting]
        ensures { result.now ≡ self.now }
    {
        self.items.as_slice()
    }
}

/// An audio streaming interface (Audio Class 2.0, 4.9).
#[derive(Drop)]
pub struct StreamInterface {
    /// bInterfaceNumber
    pub number: u8,
    /// The terminal that the interface's settings link to, 0 where none does.
    pub terminal: u8,
    /// Whether the interface carries from the host to the device: it links to an input terminal.
    pub out: bool,
    pub settings: SettingList,
}

/// A number as that of one of these settings, None where none has it.
pub fn number_among(settings: &[Setting], number: u16) -> Option<u8>
    ensures { result ≡ (if list_any (λ t. t.number == number) settings.now then Some number else None) }
{
    for setting in settings {
        if u16::from(setting.number) == number {
            return Some(setting.number);
        }
    }
    None
}
