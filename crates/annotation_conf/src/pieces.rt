//! What stands behind a name: pairs of a role, a mark and alternatives.
ghost use Rattle.std.specs.Prelude.{◌≡◌, ◌∷◌, [], map, IfOk, OnOk, encode_utf8_all, bytes_eq, codes};
ghost use Rattle.conf_model.specs.ConfPairs.{Keyed, alternative_of, alternatives_of, piece_of, pieces_of};
ghost use Rattle.annotation_conf.specs.FileKept.{behind_of};
ghost use Rattle.annotation_conf.specs.FileShows.{seen_alternative, seen_pair, seen_pieces};
ghost use Rattle.annotation_conf.specs.FileGrows.{pair_of, seen_piece, with_piece, nothing_behind};

use crate::line_parts::{copied, cut_at, enclosed, encoded, mark_start, split_at, trimmed};
use mark_base::{Memory, Text};
use std::alloc::Global;

/// An alternative: a type by its name, or a macro by the name in its brackets.
#[derive(Debug, Drop)]
pub enum Alternative {
    Named(Text),
    Held(Text),
}

/// A role with the characters of its mark and with its alternatives.
#[derive(Debug, Drop)]
pub struct RolePair {
    pub role: Text,
    pub mark: Vec<char>,
    pub alternatives: Vec<Alternative>,
}

/// A pair with a bracketed key, and the characters of its value.
#[derive(Debug, Drop)]
pub struct KeyedPair {
    pub key: Text,
    pub value: Vec<char>,
}

/// What stands behind a name, by sorts: whether some piece has no `:`, whether a pair of kinds stands
/// there, whether a role pair stands behind one, the pairs with a bracketed key, and the role pairs, each
/// in their order.
#[derive(Debug, Drop)]
pub struct Pieces {
    pub shapeless: bool,
    pub kinds: bool,
    pub late: bool,
    pub keyed: Vec<KeyedPair>,
    pub pairs: Vec<RolePair>,
}

/// A piece: one without `:`, one with a bracketed key, or a role pair.
#[derive(Debug, Drop)]
enum Piece {
    Shapeless,
    Keyed(KeyedPair),
    Pair(RolePair),
}

/// The alternative that these characters are.
fn read_alternative(alloc: Global, characters: &[char]) -> Result<Alternative, Memory>
    ensures { IfOk result (λ one. seen_alternative one ≡ alternative_of characters.now) }
{
    match enclosed(characters, '<', '>') {
        Some(inside) => Ok(Alternative::Held(encoded(alloc, inside)?)),
        None => Ok(Alternative::Named(encoded(alloc, characters)?)),
    }
}

/// The alternatives that `|` separates. Cost: the characters.
pub fn read_alternatives(alloc: Global, characters: &[char]) -> Result<Vec<Alternative>, Memory>
    ensures { IfOk result (λ all. map seen_alternative all.items ≡ alternatives_of characters.now) }
{
    let parts = split_at(alloc, characters, '|')?;
    let mut all = Vec::new(alloc);
    for part in &parts {
        all.push(read_alternative(alloc, part)?)?;
    }
    Ok(all)
}

/// The role pair of a key and a value.
fn read_pair(alloc: Global, key: &[char], value: &[char]) -> Result<RolePair, Memory>
    ensures { IfOk result (λ pair. seen_pair pair ≡ pair_of key.now value.now) }
{
    let start = mark_start(key);
    let role = encoded(alloc, &key[..start])?;
    let mark = copied(alloc, &key[start..])?;
    let alternatives = read_alternatives(alloc, value)?;
    Ok(RolePair {
        role,
        mark,
        alternatives,
    })
}

/// The piece that these characters are.
fn read_piece(alloc: Global, characters: &[char]) -> Result<Piece, Memory>
    ensures { IfOk result (λ piece. seen_piece piece ≡ piece_of characters.now) }
{
    if !characters.contains(&':') {
        return Ok(Piece::Shapeless);
    }
    let (key, value) = cut_at(characters, ':');
    match enclosed(key, '<', '>') {
        Some(inside) => {
            let key = encoded(alloc, inside)?;
            let value = copied(alloc, value)?;
            Ok(Piece::Keyed(KeyedPair { key, value }))
        }
        None => Ok(Piece::Pair(read_pair(alloc, key, value)?)),
    }
}

/// Whether the key of a pair is that of kinds.
pub fn has_kinds_key(pair: &KeyedPair) -> bool
    ensures { result ≡ bytes_eq pair.now.key (codes "OVL-TYPE") }
{
    pair.key.text() == "OVL-TYPE"
}

impl Pieces {
    /// No pieces.
    fn new(alloc: Global) -> Self
        ensures { seen_pieces result ≡ nothing_behind }
    {
        Pieces {
            shapeless: false,
            kinds: false,
            late: false,
            keyed: Vec::new(alloc),
            pairs: Vec::new(alloc),
        }
    }

    /// Adds a pair with a bracketed key behind the others.
    fn add_keyed(&mut self, pair: KeyedPair) -> Result<(), Memory>
        ensures { OnOk result (seen_pieces self.new ≡ with_piece (seen_pieces self.old) (Keyed pair.key pair.value.items)) }
    {
        self.kinds = self.kinds || has_kinds_key(&pair);
        self.keyed.push(pair)?;
        Ok(())
    }

    /// Adds a piece behind the others.
    fn add(&mut self, piece: Piece) -> Result<(), Memory>
        ensures { OnOk result (seen_pieces self.new ≡ with_piece (seen_pieces self.old) (seen_piece piece)) }
    {
        match piece {
            Piece::Shapeless => self.shapeless = true,
            Piece::Keyed(pair) => self.add_keyed(pair)?,
            Piece::Pair(pair) => {
                self.late = self.late || self.kinds;
                self.pairs.push(pair)?;
            }
        }
        Ok(())
    }
}

/// The pieces behind a name. Cost: the characters.
pub fn read_pieces(alloc: Global, characters: &[char]) -> Result<Pieces, Memory>
    ensures { IfOk result (λ pieces. seen_pieces pieces ≡ behind_of (pieces_of characters.now)) }
{
    let mut pieces = Pieces::new(alloc);
    if trimmed(characters).is_empty() {
        return Ok(pieces);
    }
    let parts = split_at(alloc, characters, ',')?;
    for part in &parts {
        let piece = read_piece(alloc, trimmed(part))?;
        pieces.add(piece)?;
    }
    Ok(pieces)
}
