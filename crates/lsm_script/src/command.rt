//! The commands of a script. The words that name them stand in `names`.

ghost use Rattle.std.specs.Prelude.{◌≡◌};
ghost use Rattle.lsm_script.specs.Script.{read_command};

/// The commands of a script.
#[derive(Clone, Copy, Debug, PartialEq, Eq)]
pub enum Command {
    Put,
    Delete,
    Batch,
    Freeze,
    Flush,
    Snap,
    Release,
    Get,
    Scan,
    Show,
    Trim,
    Pick,
    GiveUp,
    Deliver,
    Restart,
    Ask,
    Read,
}
