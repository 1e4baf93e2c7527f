//! Why a layer was not written.
use mark_base::{Failed, Memory};

/// Why a layer was not written.
#[derive(Clone, Copy, Debug, PartialEq, Eq)]
pub enum WriteAnn {
    /// The sink failed. It has taken a front of the lines.
    WriteFault,
    /// Memory ran out. The sink has taken a front of the lines, if anything.
    Memory,
}
