// What to write: `help`, `version`, and the one line that answers a wrong call.
use crate::call::{Asked, Command};
use crate::failure::Failure;
use crate::verdict::Verdict;
use streams::out::Out;

// So many words may follow `help`, of which the first counts.
const MOST_WORDS: usize = 9;

// How a command is written, or how any is.
fn form(command: Option<Command>) -> &'static str {
    let Some(command) = command else {
        return "check|print|compact|fleet|carry|show|help|version|script ..";
    };
    match command {
        Command::Check => "check SCHEMA TEXT [--root NAME] [--required] [--values N] [--bytes N]",
        Command::Print => "print SCHEMA TEXT [--root NAME]",
        Command::Compact => "compact SCHEMA TEXT [--root NAME]",
        Command::Fleet => "fleet TEXT SCHEMA.. [--root NAME] [--required] [--values N] [--bytes N]",
        Command::Carry => "carry NEWER OLDER TEXT [--root NAME]",
        Command::Show => "show SCHEMA",
        Command::Help => "help [COMMAND]",
        Command::Version => "version",
        Command::Script => "script < CALLS",
    }
}

// What a command does.
fn purpose(command: Command) -> &'static str {
    match command {
        Command::Check =>
            "Does a logger with this schema take this file, and if not, which word can't it read?",
        Command::Print => "The settings of a file as the logger would show them, one to a line.",
        Command::Compact => "The settings of a file as the logger would show them, on one line.",
        Command::Fleet =>
            "Which loggers, of several ages, take this file, and do they show the same settings?",
        Command::Carry =>
            "What an older logger makes of the settings that a newer one shows of this file.",
        Command::Show =>
            "The messages, fields and enums of a schema, in the manner of a .proto file.",
        Command::Help => "All commands, or what one of them takes.",
        Command::Version => "Which version this is.",
        Command::Script =>
            "Answers calls from standard input, one to a line and without `ventro`, with their verdicts.",
    }
}

// `write: ventro show SCHEMA`
pub fn usage(out: &mut Out, command: Option<Command>) {
    let form = form(command);
    out.print(format_args!("write: ventro {form}\n"));
}

// What a command does and takes.
fn about(out: &mut Out, command: Command) {
    let form = form(Some(command));
    let purpose = purpose(command);
    out.print(format_args!("ventro {form}\n  {purpose}\n"));
    if matches!(
        command,
        Command::Show | Command::Help | Command::Version | Command::Script
    ) {
        return;
    }
    out.bytes(
        b"\n  SCHEMA, NEWER and OLDER are schema images, TEXT is a settings file; one may be - (standard input).\n  --root NAME   the file's message, by name or number, if it isn't the schema's first\n",
    );
    if matches!(command, Command::Check | Command::Fleet) {
        out.bytes(
            b"  --required    a required field that is missing is a refusal too\n  --values N    the logger has room for N values and messages\n  --bytes N     and for N bytes of text in quotes\n",
        );
    }
}

// All commands.
fn all(out: &mut Out) {
    out.bytes(
        b"ventro: settings of soil moisture loggers, checked and shown\n\n  check SCHEMA TEXT        does a logger take this file, and if not, which word can't it read?\n  print SCHEMA TEXT        the settings as the logger would show them\n  compact SCHEMA TEXT      the same on one line\n  fleet TEXT SCHEMA..      which loggers, of several ages, take this file?\n  carry NEWER OLDER TEXT   what an older logger makes of what a newer one shows\n  show SCHEMA              the messages, fields and enums of a schema\n  help [COMMAND]           this, or what one command takes\n  version                  which version this is\n  script < CALLS           answers calls from standard input, one to a line\n\nVerdict: 0 taken, 1 refused, 2 a wrong call or a file that can't be read. No file is written.\n",
    );
}

// `help [COMMAND]` and `version`; all else is no command.
pub fn help<'a>(out: &mut Out, asked: &Asked<'a>) -> Result<Verdict, Failure<'a>> {
    if !matches!(asked.command, Some(Command::Help | Command::Version)) {
        return Err(Failure::Usage(None));
    }
    if asked.is_wrong || asked.files > MOST_WORDS {
        return Err(Failure::Usage(asked.command));
    }
    if asked.command == Some(Command::Version) {
        out.bytes(b"ventro 1.1\n");
    } else if asked.files == 0 {
        all(out);
    } else {
        let Some(command) = Command::from_word(asked.file(0)) else {
            return Err(Failure::Usage(Some(Command::Help)));
        };
        about(out, command);
    }
    Ok(Verdict::Taken)
}
