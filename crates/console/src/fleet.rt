// `ventro fleet TEXT SCHEMA..`: which loggers of several ages take a file, and whether those show the same.
use crate::table::Table;
use crate::{prints, settings};
use definitions::Refused;
use hints::catalog::Owner;
use hints::scene;
use records::Schema;
use report::call::Asked;
use report::failure::Failure;
use report::rooms::{Logger, Rooms};
use report::verdict::Verdict;
use report::{files, refusal};
use streams::line;
use streams::out::Out;
use text_format::Style;

// The print that the later ones are held to: none before a logger takes the file, then that of the first that did, with its number and how
// much of a room it takes, and none again once a print was too long to be looked at.
#[derive(Clone, Copy)]
enum First {
    None,
    Print(usize, usize),
    TooLong,
}

// How the loggers so far took the file: how many did, the worst verdict, the first print and its room, and how many show something else
// than it.
#[derive(Drop)]
struct Tally<'r> {
    taken: usize,
    verdict: Verdict,
    first: First,
    room: &'r mut [u8],
    different: usize,
}

impl Tally<'_> {
    fn judge(&mut self, verdict: Verdict) {
        self.verdict = self.verdict.max(verdict);
    }

    // Holds a print to the first one, and tells of both the line where they part.
    fn compare(&mut self, out: &mut Out, path: &[u8], length: usize, print: &[u8]) {
        let first = line::front(self.room, length);
        if let Some(i) = prints::parting(first, print) {
            prints::line_shown(out, b"it", print, i);
            prints::line_shown(out, path, first, i);
            self.judge(Verdict::Refused);
            self.different = self.different.saturating_add(1);
        }
    }

    // With the print of the logger of number k: it is kept if it is the first, and else held to that one.
    fn hold(&mut self, out: &mut Out, asked: &Asked, k: usize, print: &[u8]) {
        match self.first {
            First::None => {
                let length = line::copy(print, self.room);
                self.first = if length < print.len() {
                    First::TooLong
                } else {
                    First::Print(k, length)
                };
            }
            First::Print(first, length) => {
                self.compare(out, asked.file(first), length, print);
            }
            First::TooLong => (),
        }
    }

    // `Taken by 2 of 5; no value would be shown differently.`
    fn tell(&self, out: &mut Out, loggers: usize) {
        let taken = self.taken;
        let different = self.different;
        out.print(format_args!("Taken by {taken} of {loggers}"));
        match self.first {
            _ if taken == 0 => out.bytes(b".\n"),
            First::TooLong if taken > 1 => {
                out.bytes(b"; what they show is too long to be compared.\n");
            }
            _ if taken == 1 || different == 0 => {
                out.bytes(b"; no value would be shown differently.\n");
            }
            _ => out.print(format_args!(
                "; {different} would show values differently, as told above.\n"
            )),
        }
    }
}

// `SCHEMA: TEXT:3:7: unknown field valve_max (refusal 6)`
fn told_refused(
    out: &mut Out,
    asked: &Asked,
    k: usize,
    schema: &Schema,
    root: usize,
    text: &[u8],
    refused: Refused,
) {
    let name = asked.file(k);
    let path = asked.file(0);
    out.bytes(name);
    out.bytes(b": ");
    if refusal::is_placed(refused.why) {
        let scene = scene::scene_at(schema, root, text, refused.at.offset);
        refusal::named(
            out,
            path,
            text,
            refused,
            &scene,
            name.len().saturating_add(2),
        );
    } else {
        refusal::unplaced(out, path, refused, asked);
    }
}

// What a logger makes of the file that it reads: whether required fields are there, if that is asked, and what it shows.
fn made(
    out: &mut Out,
    asked: &Asked,
    k: usize,
    schema: &Schema,
    table: &Table,
    shown: &mut [u8],
    tally: &mut Tally,
) {
    let name = asked.file(k);
    out.bytes(name);
    if asked.is_required {
        if let Some(i) = table.missing() {
            out.bytes(b": ");
            refusal::missing(out, asked.file(0), Owner::Message.name(schema, i));
            tally.judge(Verdict::Refused);
            return;
        }
    }
    let values = table.values();
    out.print(format_args!(": takes it, {values}\n"));
    tally.taken = tally.taken.saturating_add(1);
    match table.print(Style::Pretty, shown) {
        Ok(n) => tally.hold(out, asked, k, line::front(shown, n)),
        Err(_) => tally.first = First::TooLong,
    }
}

// The logger of number k.
fn one<'a>(
    out: &mut Out,
    asked: &Asked<'a>,
    k: usize,
    text: &[u8],
    logger: &mut Logger,
    shown: &mut [u8],
    tally: &mut Tally,
) -> Result<(), Failure<'a>> {
    let image = files::load(out.rt, asked, k, &mut logger.image)?;
    let schema = settings::opened(asked, k, image)?;
    let root = settings::root_of(asked, k, &schema)?;
    match Table::read(
        asked,
        &schema,
        root,
        text,
        &mut logger.words,
        &mut logger.pool,
    ) {
        Ok(table) => made(out, asked, k, &schema, &table, shown, tally),
        Err(refused) => {
            told_refused(out, asked, k, &schema, root, text, refused);
            tally.judge(Verdict::Refused);
        }
    }
    Ok(())
}

// `fleet TEXT SCHEMA.. [--root NAME] [--required] [--values N] [--bytes N]`: the schemas one after the other, each told as it comes.
pub(crate) fn fleet<'a>(
    out: &mut Out,
    asked: &Asked<'a>,
    rooms: &mut Rooms,
) -> Result<Verdict, Failure<'a>> {
    if asked.is_wrong || asked.files < 2 {
        return Err(Failure::Usage(asked.command));
    }
    let text = files::load(out.rt, asked, 0, &mut rooms.text)?;
    let mut tally = Tally {
        taken: 0,
        verdict: Verdict::Taken,
        first: First::None,
        room: &mut rooms.older.pool,
        different: 0,
    };
    for k in 1..asked.files {
        let told = one(
            out,
            asked,
            k,
            text,
            &mut rooms.logger,
            &mut rooms.shown,
            &mut tally,
        );
        if let Err(failure) = told {
            tally.judge(failure.tell(out, asked));
        }
        out.flush();
    }
    tally.tell(out, asked.files - 1);
    if tally.verdict != Verdict::Taken {
        out.flush();
    }
    Ok(tally.verdict)
}
