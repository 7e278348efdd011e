//! Why there is no picture.

ghost use Rattle.std.specs.Prelude.{◌≡◌};
ghost use Rattle.stories.specs.Faults.{fault_in_drawing};
ghost use Rattle.stories.specs.DrawStatus.{draw_status_of};

use script::ShellFault;
use script_text::RefusedGrowth;
use shapes::PictureFault;
use thiserror::Error;

/// Why there is no picture. The words are those of the program's standard error.
#[derive(Clone, Copy, Debug, PartialEq, Eq, Error)]
pub enum DrawFault {
    /// The script could not be run, or the picture not be written.
    #[error("{0}")]
    Script(ShellFault),
    /// The table has more pages than a picture, or more were asked for.
    #[error("a picture has at most 64 pages")]
    TooManyPages,
    /// The page of this number is not in use.
    #[error("page {0} is not in use")]
    NoSuchPage(u32),
}

/// Memory was refused.
pub fn no_memory(_refused: RefusedGrowth) -> DrawFault
    ensures { result ≡ DrawFault.Script ShellFault.NoMemory }
{
    DrawFault::Script(ShellFault::NoMemory)
}

/// The table could not be drawn.
pub fn fault_of(fault: PictureFault) -> DrawFault
    ensures { result ≡ fault_in_drawing fault }
{
    match fault {
        PictureFault::TooManyPages => DrawFault::TooManyPages,
        PictureFault::NoSuchPage(page) => DrawFault::NoSuchPage(page),
        PictureFault::NoMemory => DrawFault::Script(ShellFault::NoMemory),
    }
}

impl DrawFault {
    /// The status that the program ends with: 1, but that of the shell where the script could not be run.
    pub fn status(&self) -> u8
        ensures { result ≡ draw_status_of self.now }
    {
        match self {
            DrawFault::Script(fault) => fault.status(),
            DrawFault::TooManyPages | DrawFault::NoSuchPage(_) => 1,
        }
    }
}
