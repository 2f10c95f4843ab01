// The settings of all interfaces.
ghost use Rattle.std.specs.Prelude.{◌≡◌, ◌==◌, ℕ, if◌then◌else◌, Some, IsSome};
ghost use Rattle.uac_alt.specs.AltSettings as spec;
ghost use Rattle.uac_alt.specs.AltSettings.{initial_settings, is_running, setting_of, with_setting};

use arrayvec::ArrayVec;
use std::marker::Model;
use uac_topology::Function;
use uac_topology::laws::{functions_are_sound, sound_functions_are_small};

/// An interface and the alternate setting that it is in (USB 2.0, 9.6.5).
#[derive(Clone, Copy, Debug, Default, PartialEq, Eq)]
pub struct InterfaceSetting {
    pub interface: u8,
    pub setting: u8,
}

/// The alternate setting of the control interface and of each streaming interface.
#[derive(Drop)]
pub struct Settings {
    list: ArrayVec<InterfaceSetting, 9>,
}

impl Model for Settings {
    ghost use Rattle.std.specs.Prelude.{List};
    ghost use Rattle.uac_alt.specs.declared.settings.InterfaceSetting.{InterfaceSetting};

    ghost Value = { List InterfaceSetting };

    ghost view = { λ s. s.list.items };
}

impl Settings {
    /// Each interface of a function in its setting 0. It takes no memory.
    #[tactic(auto, unfolding(crate::specs::AltSettings::initial_settings))]
    pub fn new(function: &Function) -> Settings
        ensures { result ≡ initial_settings function.now }
    {
        functions_are_sound(function);
        sound_functions_are_small();
        let mut list = ArrayVec::new();
        list.push(in_first(function.control_interface()));
        for stream in function.streams() {
            list.push(in_first(stream.number));
        }
        Settings { list }
    }

    /// The setting of an interface; None exactly for numbers of no interface of the audio function.
    #[tactic(auto, unfolding(crate::specs::AltSettings::setting_of))]
    pub fn get(&self, interface: u8) -> Option<u8>
        ensures { result ≡ setting_of self.now interface }
    {
        for held in self.list.as_slice() {
            if held.interface == interface {
                return Some(held.setting);
            }
        }
        None
    }

    /// An interface of the audio function is in this setting from now on, and each other one stays in its own (USB 2.0,
    /// 9.4.10). It takes no memory.
    pub fn set(&mut self, interface: u8, setting: u8)
        requires { IsSome (setting_of self.old interface) }
        ensures value { self.new ≡ with_setting self.old interface setting }
        ensures setting { (n : ℕ) → setting_of self.new n ≡ (if n == interface then Some setting else setting_of self.old n) }
    {
        change(self.list.as_mut_slice(), interface, setting);
    }

    /// Whether some interface is in a setting other than 0.
    pub fn running(&self) -> bool
        ensures { result ≡ is_running self.now }
    {
        self.list.as_slice().iter().any(|held| held.setting != 0)
    }
}

// One interface's setting is this one.
#[tactic(auto, unfolding(crate::specs::AltSettings::with_setting))]
fn change(settings: &mut [InterfaceSetting], interface: u8, setting: u8)
    ensures { settings.new ≡ with_setting settings.old interface setting }
{
    for held in settings.iter_mut() {
        *held = interface_setting_after(*held, interface, setting);
    }
}

fn interface_setting_after(held: InterfaceSetting, interface: u8, setting: u8) -> InterfaceSetting
    ensures { result ≡ spec.interface_setting_after interface setting held }
{
    if held.interface == interface {
        InterfaceSetting { setting, ..held }
    } else {
        held
    }
}

fn in_first(number: u8) -> InterfaceSetting
    ensures { result ≡ spec.in_first number }
{
    InterfaceSetting {
        interface: number,
        setting: 0,
    }
}
