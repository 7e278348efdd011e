//! Why there is no story.

ghost use Rattle.std.specs.Prelude.{◌≡◌};
ghost use Rattle.stories.specs.Status.{story_status_of};

use crate::draw_fault::DrawFault;
use thiserror::Error;

/// Why there is no story. The words are those of the program's standard error.
#[derive(Clone, Copy, Debug, PartialEq, Eq, Error)]
pub enum StoryFault {
    /// The script could not be run, the table not be drawn behind a line, or the page not be written.
    #[error("{0}")]
    Drawing(DrawFault),
    /// The script has more lines than a story.
    #[error("a story has at most 2000 lines")]
    TooManyLines,
}

impl StoryFault {
    /// The status that the program ends with: 1, but that of the shell where the script could not be run.
    pub fn status(&self) -> u8
        ensures { result ≡ story_status_of self.now }
    {
        match self {
            StoryFault::Drawing(fault) => fault.status(),
            StoryFault::TooManyLines => 1,
        }
    }
}
