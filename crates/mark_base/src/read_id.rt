//! How the ID of an annotation is read.
ghost use Rattle.std.specs.Prelude.{◌≡◌, ◌≢◌, ℕ, ◌≤◌, IfSome, IfNone};
ghost use Rattle.mark_base.specs.declared.ann_id.Kind.{Kind};
ghost use Rattle.mark_base.specs.AnnIds.{spelling_of};
ghost use Rattle.mark_base.specs.ReadIds.{id_read};

use crate::ann_id::{AnnId, Kind};
use crate::decimal::number_read;

impl AnnId {
    /// Reads an ID from its bytes: one letter and a decimal number without a leading zero.
    pub fn read(bytes: &[u8]) -> Option<AnnId>
        ensures read { result ≡ id_read bytes.now }
        ensures some { IfSome result (λ id. bytes.now ≡ spelling_of id.kind id.number) }
        ensures none { IfNone result ((kind : Kind) (number : ℕ) → number ≤ 999999999 → bytes.now ≢ spelling_of kind number) }
    {
        let (letter, digits) = bytes.split_first()?;
        let kind = Kind::of_letter(*letter)?;
        let number = number_read(digits)?;
        AnnId::new(kind, number)
    }
}
