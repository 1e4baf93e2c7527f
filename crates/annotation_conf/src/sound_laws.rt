//! What every configuration that was read keeps, and that its canonical text is read back as it.
ghost use Rattle.std.specs.Prelude.{◌≡◌, Ok};
ghost use Rattle.conf_model.specs.ConfOf.{conf_of};
ghost use Rattle.conf_model.specs.ConfText.{conf_text};
ghost use Rattle.conf_model.specs.Configurations.{Configuration};
ghost use Rattle.conf_model.specs.Sound.{IsSound};

// A configuration that was read is sound.
fn a_configuration_that_was_read_is_sound(bytes: &[u8])
    ensures { (conf : Configuration) → conf_of bytes.now ≡ Ok conf → IsSound conf }
{}

/// The canonical text of a sound configuration is read back as it. It does nothing; its contract is the law.
pub fn sound_configurations_are_read_back()
    ensures { (conf : Configuration) → IsSound conf → conf_of (conf_text conf) ≡ Ok conf }
{}

// The text of a configuration that was read is read back as it.
fn a_configuration_that_was_read_is_read_back(bytes: &[u8])
    ensures { (conf : Configuration) → conf_of bytes.now ≡ Ok conf → conf_of (conf_text conf) ≡ Ok conf }
{}
