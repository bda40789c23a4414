// The command `ventro`: a call's words in, what it tells a person out, and its verdict. The rooms are lent.
#![tactic(auto)]

mod carrying;
mod fleet;
mod prints;
mod settings;
mod show;
mod table;

use report::call::{Asked, Command};
use report::failure::Failure;
use report::help;
use report::rooms::Rooms;
use report::verdict::Verdict;
use streams::out::Out;

// What a call comes to, told but for what keeps it from being answered.
fn answer<'a>(out: &mut Out, asked: &Asked<'a>, rooms: &mut Rooms) -> Result<Verdict, Failure<'a>> {
    match asked.command {
        Some(Command::Check | Command::Print | Command::Compact) => {
            settings::settings(out, asked, rooms)
        }
        Some(Command::Fleet) => fleet::fleet(out, asked, rooms),
        Some(Command::Carry) => carrying::carry(out, asked, rooms),
        Some(Command::Show) => show::show(out, asked, rooms),
        Some(Command::Help | Command::Version | Command::Script) | None => help::help(out, asked),
    }
}

// Runs a call, writes what it tells, and answers its verdict: taken, refused or shown differently, or a wrong call, or a file that can't be
// read or written. What is wrong with a call goes to standard error, but for a script's calls, which are answered in one stream.
pub fn run(out: &mut Out, call: &[u8], rooms: &mut Rooms, is_script: bool) -> Verdict {
    let asked = Asked::new(call, is_script);
    let verdict = match answer(out, &asked, rooms) {
        Ok(verdict) => verdict,
        Err(failure) => failure.tell(out, &asked),
    };
    let is_written = if verdict == Verdict::Wrong && !is_script {
        out.flush_errors()
    } else {
        out.flush()
    };
    if is_written { verdict } else { Verdict::Wrong }
}
