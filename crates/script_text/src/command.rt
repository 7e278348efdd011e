//! The command in the words behind the program's name.

ghost use Rattle.std.specs.Prelude.{◌≡◌, ◌↔◌, Some, None, codes};
ghost use Rattle.std.specs.Option.{option_map};

/// The work that the program is to do.
#[derive(Clone, Copy, Debug, PartialEq, Eq)]
pub enum Command {
    /// To run the script on standard input.
    Run,
    /// To have workers do the script on standard input, each in a thread.
    Threads,
    /// To look into the bytes of a page on standard input.
    Inspect,
    /// To say how it is called.
    Usage,
}

/// How the program is called.
pub const USAGE: &str = "usage: heapsh run|threads|inspect";

/// The command in the first two words. A script is run where `run` is the only word, and done by threads where `threads` is. A page
/// is looked into where `inspect` is.
pub fn command_of(first: Option<&str>, second: Option<&str>) -> Command
    ensures run { result ≡ Command.Run
        ↔
        ((option_map (λ word. word.now) first.entry ≡ Some (codes "run"))
        × (option_map (λ word. word.now) second.entry ≡ None)) }
    ensures threads { result ≡ Command.Threads
        ↔
        ((option_map (λ word. word.now) first.entry ≡ Some (codes "threads"))
        × (option_map (λ word. word.now) second.entry ≡ None)) }
    ensures inspect { result ≡ Command.Inspect
        ↔
        ((option_map (λ word. word.now) first.entry ≡ Some (codes "inspect"))
        × (option_map (λ word. word.now) second.entry ≡ None)) }
{
    match (first, second) {
        (Some(word), None) if word == "run" => Command::Run,
        (Some(word), None) if word == "threads" => Command::Threads,
        (Some(word), None) if word == "inspect" => Command::Inspect,
        _ => Command::Usage,
    }
}
