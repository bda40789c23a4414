// What keeps a call from being answered.
use crate::call::{Asked, Command};
use crate::files::Reason;
use crate::verdict::Verdict;
use crate::{help, refusal};
use definitions::refusals::Refusal;
use streams::out::Out;

#[derive(Clone, Copy)]
pub enum Failure<'a> {
    // It is no call; the command that it may have been meant for.
    Usage(Option<Command>),
    // A file can't be read.
    Unread(&'a [u8], Reason),
    // A schema isn't one, or has no such message.
    Schema(&'a [u8], Refusal),
}

impl Failure<'_> {
    // `PATH: no such file`, `SCHEMA: this isn't a schema (refusal 1)`, or how the command is written.
    pub fn tell(self, out: &mut Out, asked: &Asked) -> Verdict {
        match self {
            Failure::Usage(command) => {
                help::usage(out, command);
                Verdict::Wrong
            }
            Failure::Unread(path, why) => {
                out.bytes(path);
                out.print(format_args!(": {why}\n"));
                Verdict::Wrong
            }
            Failure::Schema(path, why) => {
                refusal::unplaced(out, path, why.unplaced(0), asked);
                Verdict::Refused
            }
        }
    }
}
