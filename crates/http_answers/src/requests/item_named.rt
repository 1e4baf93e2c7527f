//! An item as a body names it.
ghost use Rattle.std.specs.Prelude.{◌≡◌, IfOk, option_map};
ghost use Rattle.mark_base.specs.ReadIds.{id_read};
ghost use Rattle.http_answers.specs.Routes.Segments.{slug_read};
ghost use Rattle.command_json.specs.Spellings.{of_two};
ghost use Rattle.serde_json.specs.View.{view};
ghost use Rattle.http_answers.specs.Requests.Bodies.{item_in, item_of, item_read};

use crate::requests::json_fields::text_at;
use mark_base::{AnnId, Memory, NameFault, Slug};
use serde_json::Value;
use std::alloc::Global;

/// An item of a snapshot by its holder and its ID there, as `ann/T3`.
#[derive(Debug, Drop)]
pub struct ItemNamed {
    pub holder: Slug,
    pub id: AnnId,
}

/// The slug that a text is.
fn slug_read(alloc: Global, text: &str) -> Result<Option<Slug>, Memory>
    ensures { IfOk result (λ slug. slug ≡ slug_read text.now) }
{
    match Slug::new(alloc, text) {
        Ok(slug) => Ok(Some(slug)),
        Err(NameFault::Memory) => Err(Memory),
        Err(NameFault::Empty) => Ok(None),
        Err(NameFault::TooLong) => Ok(None),
        Err(NameFault::BadChar(_)) => Ok(None),
    }
}

/// The item of a holder and an ID.
fn item_of(alloc: Global, holder: &str, id: &str) -> Result<Option<ItemNamed>, Memory>
    ensures { IfOk result (λ item. item ≡ of_two item_of (slug_read holder.now) (id_read id.now)) }
{
    let Some(holder) = slug_read(alloc, holder)? else {
        return Ok(None);
    };
    let Some(id) = AnnId::read(id.as_bytes()) else {
        return Ok(None);
    };
    Ok(Some(ItemNamed { holder, id }))
}

/// The item that a text names: a slug, a slash and an ID.
fn item_read(alloc: Global, text: &str) -> Result<Option<ItemNamed>, Memory>
    ensures { IfOk result (λ item. item ≡ item_read text.now) }
{
    match text.split_once('/') {
        Some((holder, id)) => item_of(alloc, holder, id),
        None => Ok(None),
    }
}

/// The item in a body.
pub(crate) fn item_in(alloc: Global, body: &Value) -> Result<Option<ItemNamed>, Memory>
    ensures { IfOk result (λ item. item ≡ item_in (view body.now)) }
{
    match text_at(body, "item") {
        Some(text) => item_read(alloc, text),
        None => Ok(None),
    }
}
