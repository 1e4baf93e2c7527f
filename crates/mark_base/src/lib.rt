//! What every other crate stands on: names, IDs, fragments of a text, small lists, faults and want of
//! memory, and the streams that give and take bytes.
//!
//! A [`Name`], a [`Slug`] and an [`AnnId`] are read exactly by their spelling: what is refused has a
//! fault that the caller is told, and what is read compares by its bytes or its number.
//!
//! Of the streams the main types are [`Source`], which gives bytes, [`Sink`], which takes them, and [`Link`], which
//! does both. Each counts its faults, and answers `Failed` only where that count rose, and `Ok` only where
//! it stands as before. A stream in memory tells the bytes that it holds, so a contract can speak of them:
//!
//! ```text
//! let mut sink = MemorySink::new(alloc, fails);
//! write_all(&mut sink, b"T1\tPerson 0 3\tAnn\n")?;
//! sink.written();
//! ```
#![tactic(auto)]

mod ann_id;
mod arguments;
mod bytes;
mod decimal;
mod fail_list;
mod failed;
mod fragments;
mod id_list;
mod line_ends;
mod link;
mod memory_link;
mod memory_sink;
mod memory_source;
mod name;
mod named_args;
mod overlap;
mod read_id;
mod sink;
mod slug;
mod slug_list;
mod source;
mod steps;
mod table_places;
mod text;

pub use crate::ann_id::{AnnId, Kind};
pub use crate::arguments::{Arg, ArgList};
pub use crate::bytes::Bytes;
pub use crate::decimal::{is_canonical, number_read};
pub use crate::fail_list::FailList;
pub use crate::failed::{Failed, Memory};
pub use crate::fragments::{Frag, FragList, split_fragments};
pub use crate::id_list::IdList;
pub use crate::line_ends::count_line_ends;
pub use crate::link::{Link, receive, send, send_all};
pub use crate::memory_link::MemoryLink;
pub use crate::memory_sink::MemorySink;
pub use crate::memory_source::MemorySource;
pub use crate::name::{Name, NameFault, char_count};
pub use crate::named_args::{NamedArg, NamedArgs};
pub use crate::overlap::OvlKind;
pub use crate::sink::{Sink, write_all};
pub use crate::slug::Slug;
pub use crate::slug_list::SlugList;
pub use crate::source::Source;
pub use crate::steps::Steps;
pub use crate::table_places::{AttrId, RelId, TypeId};
pub use crate::text::Text;
