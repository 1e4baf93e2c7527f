//! The fields of commands, written as bytes.
ghost use Rattle.std.specs.Prelude.{◌≡◌, ◌++◌, ◌∷◌, [], length, OnOk, IfSome, IsUtf8};
ghost use Rattle.std.specs.List.{AllByRecursion};
ghost use Rattle.entry_bytes.specs.Fields.{u32_bytes, text_bytes};
ghost use Rattle.command_bytes.specs.CommandBytes.{name_bytes, id_bytes, list_bytes, frag_bytes, arg_bytes, value_bytes};
ghost use Rattle.command_bytes.specs.CommandValues.{IsName, IsFrag};

use layer_model::letter_place;
use mark_base::{AnnId, Frag, FragList, IdList, Memory, Name, NamedArg, NamedArgs, Text};

/// Writes one byte.
pub(crate) fn put_u8(out: &mut Vec<u8>, byte: u8) -> Result<(), Memory>
    ensures { OnOk result (out.new.items ≡ out.old.items ++ byte ∷ []) }
{
    out.push(byte)?;
    Ok(())
}

/// Writes a number in four bytes.
#[tactic(auto, unfolding(entry_bytes::specs::Fields::u32_bytes))]
pub(crate) fn put_u32(out: &mut Vec<u8>, number: u32) -> Result<(), Memory>
    ensures { OnOk result (out.new.items ≡ out.old.items ++ u32_bytes number) }
{
    out.extend_from_slice(&number.to_le_bytes())?;
    Ok(())
}

/// Writes a count in four bytes, of which a greater one shows its low four.
#[tactic(auto, unfolding(entry_bytes::specs::Fields::u32_bytes))]
pub(crate) fn put_count(out: &mut Vec<u8>, count: usize) -> Result<(), Memory>
    ensures { OnOk result (out.new.items ≡ out.old.items ++ u32_bytes count) }
{
    let bytes = [
        (count % 256) as u8,
        (count / 256 % 256) as u8,
        (count / 65_536 % 256) as u8,
        (count / 16_777_216 % 256) as u8,
    ];
    out.extend_from_slice(&bytes)?;
    Ok(())
}

/// Writes bytes behind the four bytes of their number.
pub(crate) fn put_counted(out: &mut Vec<u8>, bytes: &[u8]) -> Result<(), Memory>
    ensures { OnOk result (out.new.items ≡ out.old.items ++ text_bytes bytes.now) }
{
    put_count(out, bytes.len())?;
    out.extend_from_slice(bytes)?;
    Ok(())
}

/// Writes a text behind the four bytes of its length.
pub(crate) fn put_text(out: &mut Vec<u8>, text: &Text) -> Result<(), Memory>
    ensures bytes { OnOk result (out.new.items ≡ out.old.items ++ text_bytes text.now) }
    ensures is { OnOk result (IsUtf8 text.now) }
{
    put_counted(out, text.text().as_bytes())
}

/// Writes a name behind the byte of its length; one of 255 bytes or more is a text behind the byte 255.
pub(crate) fn put_name(out: &mut Vec<u8>, name: &Name) -> Result<(), Memory>
    ensures bytes { OnOk result (out.new.items ≡ out.old.items ++ name_bytes name.now) }
    ensures is { OnOk result (IsName name.now) }
{
    let text = name.text();
    let bytes = text.as_bytes();
    if bytes.len() < 255 {
        out.push(bytes.len() as u8)?;
        out.extend_from_slice(bytes)?;
        Ok(())
    } else {
        out.push(255)?;
        put_counted(out, bytes)
    }
}

/// Writes an ID: the place of its letter, and its number.
pub(crate) fn put_id(out: &mut Vec<u8>, id: AnnId) -> Result<(), Memory>
    ensures { OnOk result (out.new.items ≡ out.old.items ++ id_bytes id) }
{
    out.push(letter_place(id.kind))?;
    put_u32(out, id.number)
}

/// Writes a fragment: its start and its end.
fn put_frag(out: &mut Vec<u8>, frag: &Frag) -> Result<(), Memory>
    ensures bytes { OnOk result (out.new.items ≡ out.old.items ++ frag_bytes frag.now) }
    ensures is { OnOk result (IsFrag frag.now) }
{
    put_u32(out, frag.start)?;
    put_u32(out, frag.end)
}

/// Writes an argument: its role and its target.
pub(crate) fn put_arg(out: &mut Vec<u8>, arg: &NamedArg) -> Result<(), Memory>
    ensures bytes { OnOk result (out.new.items ≡ out.old.items ++ arg_bytes arg.now) }
    ensures is { OnOk result (IsName arg.now.role) }
{
    put_name(out, &arg.role)?;
    put_id(out, arg.target)
}

/// Writes fragments behind their number.
pub(crate) fn put_frags(out: &mut Vec<u8>, frags: &FragList) -> Result<(), Memory>
    ensures bytes { OnOk result (out.new.items ≡ out.old.items ++ list_bytes frag_bytes frags.now) }
    ensures are { OnOk result (AllByRecursion IsFrag frags.now) }
{
    let items = frags.items();
    put_count(out, items.len())?;
    for frag in items {
        put_frag(out, frag)?;
    }
    Ok(())
}

/// Writes IDs behind their number.
pub(crate) fn put_ids(out: &mut Vec<u8>, ids: &IdList) -> Result<(), Memory>
    ensures { OnOk result (out.new.items ≡ out.old.items ++ list_bytes id_bytes ids.now) }
{
    let items = ids.items();
    put_count(out, items.len())?;
    for id in items {
        put_id(out, *id)?;
    }
    Ok(())
}

/// Writes arguments behind their number.
pub(crate) fn put_args(out: &mut Vec<u8>, args: &NamedArgs) -> Result<(), Memory>
    ensures bytes { OnOk result (out.new.items ≡ out.old.items ++ list_bytes arg_bytes args.now) }
    ensures are { OnOk result (AllByRecursion (λ arg. IsName arg.role) args.now) }
{
    let items = args.items();
    put_count(out, items.len())?;
    for arg in items {
        put_arg(out, arg)?;
    }
    Ok(())
}

/// Writes a value that may be absent: 0, or 1 and the value.
pub(crate) fn put_value(out: &mut Vec<u8>, value: &Option<Name>) -> Result<(), Memory>
    ensures bytes { OnOk result (out.new.items ≡ out.old.items ++ value_bytes value.now) }
    ensures is { OnOk result (IfSome value.now IsName) }
{
    match value {
        Some(value) => {
            out.push(1)?;
            put_name(out, value)
        }
        None => {
            out.push(0)?;
            Ok(())
        }
    }
}
