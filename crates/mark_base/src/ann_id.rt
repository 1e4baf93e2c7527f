//! The IDs of annotations.
ghost use Rattle.std.specs.Prelude.{◌≡◌, ◌≢◌, ◌∷◌, [], ℕ, ◌≤◌, ◌↔◌, IsSome, IfSome, IfNone};
ghost use Rattle.mark_base.specs.declared.ann_id.Kind.{Kind};
ghost use Rattle.mark_base.specs.AnnIds.{letter_of, kind_read};

/// The sort of an annotation, which its ID shows by a letter: `T`, `E`, `R`, `A`, `M`, `N` and `#`.
#[derive(Clone, Copy, Debug, PartialEq, Eq, PartialOrd, Ord)]
pub enum Kind {
    /// A text-bound annotation: a span.
    Text,
    /// An event.
    Event,
    /// A relation of two annotations.
    Relation,
    /// An attribute.
    Attribute,
    /// An attribute under the letter of older files, a modification.
    Legacy,
    /// A normalization: a reference to an entry of a store.
    Normal,
    /// A note of an annotator.
    Note,
}

impl Kind {
    /// The letter of the sort in ASCII.
    pub fn letter(self) -> u8
        ensures { result ≡ letter_of self }
    {
        match self {
            Kind::Text => b'T',
            Kind::Event => b'E',
            Kind::Relation => b'R',
            Kind::Attribute => b'A',
            Kind::Legacy => b'M',
            Kind::Normal => b'N',
            Kind::Note => b'#',
        }
    }

    /// The letter of the sort as a text.
    pub fn as_str(self) -> &'static str
        ensures { result.now ≡ letter_of self ∷ [] }
    {
        match self {
            Kind::Text => "T",
            Kind::Event => "E",
            Kind::Relation => "R",
            Kind::Attribute => "A",
            Kind::Legacy => "M",
            Kind::Normal => "N",
            Kind::Note => "#",
        }
    }

    /// The sort of a letter.
    pub fn of_letter(letter: u8) -> Option<Kind>
        ensures read { result ≡ kind_read letter }
        ensures some { IfSome result (λ kind. letter_of kind ≡ letter) }
        ensures none { IfNone result ((kind : Kind) → letter_of kind ≢ letter) }
    {
        match letter {
            b'T' => Some(Kind::Text),
            b'E' => Some(Kind::Event),
            b'R' => Some(Kind::Relation),
            b'A' => Some(Kind::Attribute),
            b'M' => Some(Kind::Legacy),
            b'N' => Some(Kind::Normal),
            b'#' => Some(Kind::Note),
            _ => None,
        }
    }
}

/// The ID of an annotation, as `T12`. IDs are ordered by sort, then by number.
#[derive(Clone, Copy, Debug, PartialEq, Eq, PartialOrd, Ord)]
pub struct AnnId {
    pub kind: Kind,
    pub number: u32,
    ghost within: { number ≤ 999999999 },
}

impl AnnId {
    ghost use Rattle.mark_base.specs.IdOrder.{id_cmp};

    /// The greatest number of an ID.
    pub const GREATEST: u32 = 999_999_999;

    /// IDs are ordered by sort, as the variants of [`Kind`] stand, and then by number.
    pub fn keeps_order(self, other: AnnId)
        ensures { ⟦<AnnId as Ord>⟧.cmp self other ≡ id_cmp self other }
    {
        let _ = (self, other);
    }

    /// The ID of this sort and number.
    pub fn new(kind: Kind, number: u32) -> Option<AnnId>
        ensures within { IsSome result ↔ (number ≤ 999999999) }
        ensures parts { IfSome result (λ id. (id.kind ≡ kind) × (id.number ≡ number)) }
    {
        if number <= AnnId::GREATEST {
            Some(AnnId { kind, number })
        } else {
            None
        }
    }
}
