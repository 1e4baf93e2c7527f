//! A call of `match_scores` that no command makes: a layer that is withdrawn.
use crate::files::layer_of;
use match_scores::{Scores, Sort};
use std::alloc::Global;
use std::test::Fail;

/// A person, and the meeting of this person.
const ANN: &str = "T1\tPerson 0 3\tAnn\nT2\tMeet 4 7\tmet\nE1\tMeet:T2 Who:T1\n";

/// The same under other IDs, and a place.
const BOB: &str =
    "T1\tMeet 4 7\tmet\nT2\tPerson 0 3\tAnn\nE1\tMeet:T1 Who:T2\nT3\tLocation 15 19\tRome\n";

/// Takes in a document.
fn admit(scores: &mut Scores) -> Result<u32, Fail> {
    if scores.document_count() >= 4096 {
        return Err(Fail::new("too many documents"));
    }
    Ok(scores.admit()?)
}

/// Posts the layer of a file.
fn post(alloc: Global, scores: &mut Scores, doc: u32, rater: u8, ann: &str) -> Result<(), Fail> {
    let layer = layer_of(alloc, ann)?;
    if doc as usize >= scores.document_count() || rater >= scores.raters() {
        return Err(Fail::new("no such document or annotator"));
    }
    Ok(scores.post(doc, rater, &layer)?)
}

/// Withdraws a layer, and says whether one stood.
fn withdraw(scores: &mut Scores, doc: u32, rater: u8) -> Result<bool, Fail> {
    if doc as usize >= scores.document_count() || rater >= scores.raters() {
        return Err(Fail::new("no such document or annotator"));
    }
    Ok(scores.withdraw(doc, rater))
}

/// Whether a line is as it is written: the three counts, and the score or `undefined`.
fn shows(
    alloc: Global,
    scores: &Scores,
    a: u8,
    b: u8,
    sort: Sort,
    wanted: &str,
) -> Result<bool, Fail> {
    if a >= b || b >= scores.raters() {
        return Err(Fail::new("no such annotators"));
    }
    let line = scores.line(a, b, sort);
    let both = line.both;
    let first = line.first_only;
    let second = line.second_only;
    let text = match line.score {
        None => format!(in alloc; "{both},{first},{second},undefined")?,
        Some(score) => {
            let top = score.top;
            let bottom = score.bottom;
            format!(in alloc; "{both},{first},{second},{top},{bottom}")?
        }
    };
    Ok(text.as_str() == wanted)
}

#[test]
fn a_layer_that_is_withdrawn_counts_no_more(rt: HostRuntime) -> Result<(), Fail> {
    let alloc = rt.alloc();
    let mut scores = Scores::new(alloc, 2)?;
    let doc = admit(&mut scores)?;
    post(alloc, &mut scores, doc, 0, ANN)?;
    post(alloc, &mut scores, doc, 1, BOB)?;
    assert!(rt; shows(alloc, &scores, 0, 1, Sort::Spans, "2,0,1,4,5")?);
    assert!(rt; withdraw(&mut scores, doc, 1)?);
    assert!(rt; shows(alloc, &scores, 0, 1, Sort::Spans, "0,0,0,undefined")?);
    assert!(rt; !withdraw(&mut scores, doc, 1)?);
    Ok(())
}
