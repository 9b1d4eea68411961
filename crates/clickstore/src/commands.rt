// The commands of the program.

// A command.
#[derive(Clone, Copy, PartialEq, Eq)]
pub(crate) enum Command {
    Format,
    Session,
    Inspect,
    Publish,
    Demo,
}

// Each command that the program knows.
const COMMANDS: [Command; 5] = [
    Command::Format,
    Command::Session,
    Command::Inspect,
    Command::Publish,
    Command::Demo,
];

impl Command {
    // The word that asks for it.
    pub(crate) fn name(self) -> &'static str {
        match self {
            Command::Format => "format",
            Command::Session => "session",
            Command::Inspect => "inspect",
            Command::Publish => "publish",
            Command::Demo => "demo",
        }
    }

    // The command of this name, if there is one.
    pub(crate) fn of(name: &str) -> Option<Command> {
        for command in COMMANDS {
            if command.name() == name {
                return Some(command);
            }
        }
        None
    }
}
