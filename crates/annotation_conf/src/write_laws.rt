//! The canonical text of a configuration, read.
ghost use Rattle.std.specs.Prelude.{◌≡◌, length};
ghost use Rattle.std.specs.Str.Lossy.{utf8_valid_len};
ghost use Rattle.conf_model.specs.ConfText.{conf_text};
ghost use Rattle.conf_model.specs.Configurations.{Configuration};
ghost use Rattle.conf_model.specs.Sound.{IsSound};

// The canonical text of a sound configuration is UTF-8.
fn written_text_is_utf8()
    ensures { (conf : Configuration) → IsSound conf → utf8_valid_len (conf_text conf) ≡ length (conf_text conf) }
{}
