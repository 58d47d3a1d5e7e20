//! The commands on a STIL text, and their words.

ghost use Rattle.std.specs.Prelude.{◌≡◌, IfSome, IfNone};
ghost use Rattle.text_commands.specs.Commands.{command_word};
ghost use Rattle.text_commands.specs.declared.command.Command.{Command};

/// A command that needs no tester; each has the name of a STIL text's file behind it.
#[derive(Clone, Copy, Debug, PartialEq, Eq)]
pub enum Command {
    /// Prints the numbers of the compiled code.
    Check,
    /// Prints the dated cycles.
    Cycles,
    /// Prints the moments of the cycles.
    Events,
    /// Writes the code as a saved program.
    Save,
    /// Writes the code as a flat STIL text.
    Flat,
}

/// The command of a word.
pub fn command_of(word: &str) -> Option<Command>
    ensures found { IfSome result (λ command. word.now ≡ command_word command) }
    ensures none { IfNone result ((command : Command) → word.now ≡ command_word command → ⊥) }
{
    if word == "check" {
        Some(Command::Check)
    } else if word == "cycles" {
        Some(Command::Cycles)
    } else if word == "events" {
        Some(Command::Events)
    } else if word == "save" {
        Some(Command::Save)
    } else if word == "flat" {
        Some(Command::Flat)
    } else {
        None
    }
}
