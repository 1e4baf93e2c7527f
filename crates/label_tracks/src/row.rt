ghost use Rattle.std.specs.Prelude.{◌≡◌, ℕ, ◌+◌, ◌<◌, ◌^◌, length, slice_index};

use mark_base::Steps;
use std::marker::Model;
use std::sync::ledger::Ledger;

/// The labels that one annotator gave to the tokens of a document, in their order.
///
/// A label is a number below 256: 0 for a token that no span covers. It takes one byte a token.
#[derive(Drop)]
pub struct LabelRow {
    labels: Vec<u8>,
}

impl Model for LabelRow {
    ghost use Rattle.std.specs.Prelude.{ℕ, ◌<◌, ◌^◌, List, length};

    ghost Value = { List ℕ };

    ghost view = { λ row. row.labels.items };

    ghost invariant = { λ row. length row.labels.items < 2 ^ 32 };
}

impl LabelRow {
    /// The row of these labels, the first token's first.
    pub fn of(labels: Vec<u8>) -> LabelRow
        requires { length labels.items < 2 ^ 32 }
        ensures { result ≡ labels.items }
    {
        LabelRow { labels }
    }

    /// How many tokens the row labels.
    pub fn len(&self) -> u32
        ensures { result ≡ length self.now }
    {
        self.labels.len() as u32
    }

    /// The label of token `i`, counted from 0. One look is one step.
    pub fn at<L: Ledger>(&self, i: u32, steps: &mut Steps<L>) -> u8
        requires { i < length self.now }
        ensures label { result ≡ slice_index self.now i }
        ensures step { steps.new ≡ steps.old + 1 }
    {
        steps.tick();
        self.labels[i as usize]
    }
}
