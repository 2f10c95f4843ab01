// The selectors of controls (Audio Class 2.0, A.17).

/// A clock source's frequency (A.17.1).
pub const CS_SAM_FREQ_CONTROL: u8 = 0x01;

/// Whether a clock source is valid (A.17.1).
pub const CS_CLOCK_VALID_CONTROL: u8 = 0x02;

/// The pin that a clock selector takes (A.17.2).
pub const CX_CLOCK_SELECTOR_CONTROL: u8 = 0x01;

/// A clock multiplier's numerator (A.17.3).
pub const CM_NUMERATOR_CONTROL: u8 = 0x01;

/// A clock multiplier's denominator (A.17.3).
pub const CM_DENOMINATOR_CONTROL: u8 = 0x02;

/// A terminal's connector (A.17.4).
pub const TE_CONNECTOR_CONTROL: u8 = 0x02;

/// A mixer's node (A.17.5).
pub const MU_MIXER_CONTROL: u8 = 0x01;

/// The pin that a selector takes (A.17.6).
pub const SU_SELECTOR_CONTROL: u8 = 0x01;

/// A feature's mute (A.17.7).
pub const FU_MUTE_CONTROL: u8 = 0x01;

/// A feature's volume (A.17.7).
pub const FU_VOLUME_CONTROL: u8 = 0x02;

/// The enable control of an effect of any type (A.17.8).
pub const EU_ENABLE_CONTROL: u8 = 0x01;

/// A streaming interface's active setting (A.17.11).
pub const AS_ACT_ALT_SETTING_CONTROL: u8 = 0x01;

/// A streaming interface's valid settings (A.17.11).
pub const AS_VAL_ALT_SETTINGS_CONTROL: u8 = 0x02;
