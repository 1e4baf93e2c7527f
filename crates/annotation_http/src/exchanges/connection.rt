//! A connection between two messages.
ghost use Rattle.std.specs.Prelude.{◌≡◌};
ghost use Rattle.std.specs.Arc.{arc_value};

use char_documents::Doc;
use conf_model::Conf;
use layer_undo::Desk;
use mark_base::Slug;
use std::sync::Arc;

/// A desk that was handed out: to whom, on which document, under which hold, with the text and the configuration
/// that it is for. The hold is the place of the checkout or takeover.
#[derive(Drop)]
pub struct Held {
    pub who: Slug,
    pub doc: Slug,
    pub hold: u64,
    pub text: Arc<Doc>,
    pub conf: Arc<Conf>,
    pub desk: Desk,
    ghost text_is: { arc_value text ≡ desk.text },
    ghost conf_is: { arc_value conf ≡ desk.conf },
}

/// What a connection holds, as it starts or goes on.
#[derive(Drop)]
pub enum Start {
    /// No desk.
    Bare,
    /// A desk.
    Held(Held),
}
