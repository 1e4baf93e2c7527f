//! The value that a command gives to an attribute.
ghost use Rattle.std.specs.Prelude.{◌≡◌};
ghost use Rattle.layer_core.specs.CommandRules.{has_value};
ghost use Rattle.layer_rules.specs.AttributeValues.{value_of, value_refused};
ghost use Rattle.layer_core.specs.ValueShows.{valued_of};

use conf_model::Conf;
use mark_base::{AttrId, Name};

/// The value that a command gives to an attribute: a name that is not declared, or none, or a declared
/// one by its place.
#[derive(Clone, Copy)]
pub(crate) enum Valued {
    Undeclared,
    Declared(Option<u16>),
}

/// The value of a name where one is given.
pub(crate) fn value_of(conf: &Conf, kind: AttrId, value: &Option<Name>) -> Valued
    ensures { valued_of result ≡ value_of conf.now kind.n value.now }
{
    match value {
        None => Valued::Declared(None),
        Some(name) => match conf.value(kind, name) {
            Some(place) => Valued::Declared(Some(place)),
            None => Valued::Undeclared,
        },
    }
}

/// Whether an attribute that has so many values does not have this one.
pub(crate) fn is_refused(declared: u16, value: Valued) -> bool
    ensures { result ≡ value_refused declared (valued_of value) }
{
    match value {
        Valued::Undeclared => true,
        Valued::Declared(None) => declared > 0,
        Valued::Declared(Some(place)) => place >= declared,
    }
}

/// Whether an attribute with this value has the value that is given.
pub(crate) fn is_had(had: Option<u16>, value: Valued) -> bool
    ensures { result ≡ has_value had (valued_of value) }
{
    match (had, value) {
        (None, Valued::Declared(None)) => true,
        (Some(a), Valued::Declared(Some(b))) => a == b,
        _ => false,
    }
}
