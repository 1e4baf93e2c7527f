//! Why a run of `serve` does not do its job.
use program_inputs::Trouble;

/// Why a run of `serve` does not do its job.
#[derive(Debug, Drop)]
pub enum ServeEnd {
    /// The file of the project was not opened, or memory ran out.
    Trouble(Trouble),
    /// No door was handed out for the port, or one that had counted a fault before, which was counted. The file of the
    /// project was not looked at.
    DoorRefused,
    /// The door failed, which was counted.
    DoorFailed,
}
