//! Verdicts, by the bytes that pieces hold.
ghost use Rattle.std.specs.Prelude.{◌≡◌, ◌++◌, IfNone, IfOk, IfSome, List, None, OnOk, Some, length};
ghost use Rattle.command_bytes.specs.CommandBytes.{list_bytes};
ghost use Rattle.entry_bytes.specs.Fields.{flag, u32_bytes};
ghost use Rattle.unanimous_merge.specs.Readings.{readings};
ghost use Rattle.unanimous_merge.specs.Rows.{AreCoherent};
ghost use Rattle.unanimous_merge.specs.declared.item.ItemId.{ItemId};
ghost use Rattle.curator_decisions.specs.declared.verdict.Verdict.{Verdict};
ghost use Rattle.curator_decisions.specs.DecisionFaults.{decision_fault};
ghost use Rattle.curator_decisions.specs.Decisions.{Ascend};
ghost use Rattle.project_machine.specs.Entries.{accepts, verdict_bytes};
ghost use Rattle.checkpoint.specs.Reading.{AreVerdicts};
ghost use Rattle.checkpoint.specs.VerdictReading.{ReadsPairs, ReadsVerdicts};

use crate::ascending::items_ascend;
use crate::same_bytes::are_same;
use char_documents::Doc;
use command_bytes::id_of;
use conf_model::Conf;
use curator_decisions::{DecisionFault, Decisions, Verdict};
use layer_model::{Snapshot, letter_place};
use mark_base::{Bytes, Memory};
use std::alloc::Global;
use unanimous_merge::ItemId;

/// The verdict of a byte: 1 for accepted, and 0 for rejected.
fn verdict_of(byte: u8) -> Option<Verdict>
    ensures { (verdict : Verdict) → byte ≡ flag (accepts verdict) → result ≡ Some verdict }
{
    match byte {
        0 => Some(Verdict::Reject),
        1 => Some(Verdict::Accept),
        _ => None,
    }
}

/// The verdict of its seven bytes, with its item.
fn pair_of(bytes: &[u8]) -> Option<(ItemId, Verdict)>
    ensures { (pair : ItemId × Verdict) → bytes.now ≡ verdict_bytes pair → result ≡ Some pair }
{
    if bytes.len() != 7 {
        return None;
    }
    let number = u32::from_le_bytes([bytes[2], bytes[3], bytes[4], bytes[5]]);
    let id = id_of(bytes[1], number)?;
    let verdict = verdict_of(bytes[6])?;
    let holder = bytes[0];
    Some((ItemId { holder, id }, verdict))
}

/// The verdicts that stand one behind another in bytes; `None` where other bytes are among them.
fn pairs_of(alloc: Global, bytes: &[u8]) -> Result<Option<Vec<(ItemId, Verdict)>>, Memory>
    ensures { IfOk result (ReadsPairs bytes.now) }
{
    let mut pairs = Vec::new(alloc);
    let mut rest = bytes;
    while !rest.is_empty() {
        if rest.len() < 7 {
            return Ok(None);
        }
        let (one, more) = rest.split_at(7);
        match pair_of(one) {
            Some(pair) => pairs.push(pair)?,
            None => return Ok(None),
        }
        rest = more;
    }
    Ok(Some(pairs))
}

/// The verdicts behind the four bytes of their number; `None` where bytes are those of none.
fn verdicts_of(alloc: Global, bytes: &[u8]) -> Result<Option<Vec<(ItemId, Verdict)>>, Memory>
    ensures { IfOk result (ReadsVerdicts bytes.now) }
{
    if bytes.len() < 4 {
        return Ok(None);
    }
    let (_, rest) = bytes.split_at(4);
    let pairs = pairs_of(alloc, rest)?;
    Ok(pairs)
}

/// Writes a number in four bytes.
#[tactic(auto, unfolding(entry_bytes::specs::Fields::u32_bytes))]
fn put_u32(out: &mut Vec<u8>, number: u32) -> Result<(), Memory>
    ensures { OnOk result (out.new.items ≡ out.old.items ++ u32_bytes number) }
{
    out.extend_from_slice(&number.to_le_bytes())?;
    Ok(())
}

/// Whether a verdict is that an item is accepted.
fn accepts(verdict: Verdict) -> bool
    ensures { result ≡ accepts verdict }
{
    match verdict {
        Verdict::Accept => true,
        Verdict::Reject => false,
    }
}

/// Writes a verdict and its item.
fn put_verdict(out: &mut Vec<u8>, pair: (ItemId, Verdict)) -> Result<(), Memory>
    ensures { OnOk result (out.new.items ≡ out.old.items ++ verdict_bytes pair) }
{
    out.push(pair.0.holder)?;
    out.push(letter_place(pair.0.id.kind))?;
    put_u32(out, pair.0.id.number)?;
    out.push(accepts(pair.1) as u8)?;
    Ok(())
}

/// The bytes of verdicts: how many there are, and each by item.
fn verdicts_written(alloc: Global, decisions: &Decisions) -> Result<Bytes, Memory>
    ensures { IfOk result (λ bytes. bytes ≡ list_bytes verdict_bytes decisions.now) }
{
    let mut out = Vec::new(alloc);
    put_u32(&mut out, decisions.count())?;
    for place in 0..decisions.count() {
        match decisions.at(place) {
            Some(pair) => put_verdict(&mut out, pair)?,
            None => unreachable!(),
        }
    }
    Ok(Bytes::from_vec(out))
}

/// The verdicts of a list, where they stand in the order of items and are accepted on the layers of a snapshot.
fn decisions_of(
    alloc: Global,
    snapshot: &Snapshot,
    doc: &Doc,
    conf: &Conf,
    pairs: &[(ItemId, Verdict)],
) -> Result<Option<Decisions>, Memory>
    requires { AreCoherent snapshot.now }
    ensures same { IfOk result (λ found. IfSome found (λ decisions. decisions ≡ pairs.now)) }
    ensures accepted { IfOk result (λ found. IfSome found (λ decisions. decision_fault conf.now (length doc.now) (readings snapshot.now) pairs.now ≡ None)) }
    ensures ascending { IfOk result (λ found. IfSome found (λ decisions. Ascend pairs.now)) }
    ensures refused { IfOk result (λ found. IfNone found (Ascend pairs.now → decision_fault conf.now (length doc.now) (readings snapshot.now) pairs.now ≡ None → ⊥)) }
{
    if !items_ascend(pairs) {
        return Ok(None);
    }
    match Decisions::of(alloc, snapshot, doc, conf, pairs) {
        Ok(decisions) => Ok(Some(decisions)),
        Err(fault) => match fault {
            DecisionFault::Memory => Err(Memory),
            _ => Ok(None),
        },
    }
}

/// The verdicts that bytes say, where they are accepted on the layers of a snapshot.
pub(crate) fn verdicts_on(
    alloc: Global,
    snapshot: &Snapshot,
    doc: &Doc,
    conf: &Conf,
    bytes: &Bytes,
) -> Result<Option<Decisions>, Memory>
    requires { AreCoherent snapshot.now }
    ensures found { IfOk result (λ found. IfSome found (AreVerdicts conf.now doc.now snapshot.now bytes.now)) }
    ensures none { IfOk result (λ found. IfNone found ((verdicts : List (ItemId × Verdict)) → AreVerdicts conf.now doc.now snapshot.now bytes.now verdicts → ⊥)) }
{
    let Some(pairs) = verdicts_of(alloc, bytes.items())? else {
        return Ok(None);
    };
    let Some(decisions) = decisions_of(alloc, snapshot, doc, conf, pairs.as_slice())? else {
        return Ok(None);
    };
    let written = verdicts_written(alloc, &decisions)?;
    if are_same(written.items(), bytes.items()) {
        Ok(Some(decisions))
    } else {
        Ok(None)
    }
}
