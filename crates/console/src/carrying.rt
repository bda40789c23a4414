// `ventro carry NEWER OLDER TEXT`: what an older logger makes of the settings that a newer one shows.
use crate::settings;
use crate::table::Table;
use carry::NotCarried;
use definitions::Refused;
use definitions::refusals::Refusal;
use records::Schema;
use report::call::Asked;
use report::failure::Failure;
use report::rooms::{Logger, Rooms};
use report::verdict::Verdict;
use report::{files, refusal};
use streams::line;
use streams::out::Out;
use text_format::Style;

// `OLDER takes it and shows 12 values:` and these.
fn made(out: &mut Out, asked: &Asked, table: &Table, shown: &mut [u8]) -> Verdict {
    let path = asked.file(1);
    out.bytes(path);
    let values = table.values();
    out.print(format_args!(" takes it and shows {values}:\n"));
    out.flush();
    settings::put(out, path, asked, table, shown)
}

// `OLDER refuses what NEWER shows:` and the refusal, which has its place in what the newer shows: that stands in its room.
fn refused_by(
    out: &mut Out,
    asked: &Asked,
    table: &Table,
    older: &Schema,
    shown: &mut [u8],
    refused: Refused,
) -> Verdict {
    let n = table.print(Style::Pretty, shown).unwrap_or(0);
    out.bytes(asked.file(1));
    out.bytes(b" refuses what ");
    out.bytes(asked.file(0));
    out.bytes(b" shows:\n");
    out.flush();
    let print = line::front(shown, n);
    refusal::of_read(out, b"shown", asked, older, table.root, print, refused)
}

// Carries a table of the newer schema to the older one.
fn carried(
    out: &mut Out,
    asked: &Asked,
    table: &Table,
    older: &Schema,
    more: &mut [u32],
    extra: &mut [u8],
    shown: &mut [u8],
) -> Verdict {
    let Table {
        image,
        root,
        nodes,
        pool,
    } = *table;
    match carry::carry(
        true,
        image,
        older.image,
        root,
        nodes,
        pool,
        shown,
        more,
        extra,
    ) {
        Ok(counts) => {
            let table = Table::of(older.image, root, more, extra, counts);
            made(out, asked, &table, shown)
        }
        Err(NotCarried::Print(refused)) => {
            refusal::unplaced(out, asked.file(2), refused, asked);
            Verdict::Refused
        }
        Err(NotCarried::Read(refused)) => refused_by(out, asked, table, older, shown, refused),
    }
}

// `carry NEWER OLDER TEXT [--root NAME]`
pub(crate) fn carry<'a>(
    out: &mut Out,
    asked: &Asked<'a>,
    rooms: &mut Rooms,
) -> Result<Verdict, Failure<'a>> {
    if asked.is_wrong || asked.files != 3 || asked.is_required || asked.has_limits() {
        return Err(Failure::Usage(asked.command));
    }
    let Rooms {
        text,
        logger: Logger { image, words, pool },
        older: Logger {
            image: before,
            words: more,
            pool: extra,
        },
        shown,
    } = rooms;
    let image = files::load(out.rt, asked, 0, image)?;
    let before = files::load(out.rt, asked, 1, before)?;
    let text = files::load(out.rt, asked, 2, text)?;
    let schema = settings::opened(asked, 0, image)?;
    let before = settings::opened(asked, 1, before)?;
    let root = settings::root_of(asked, 0, &schema)?;
    if before.message_count() <= root {
        return Err(Failure::Schema(asked.file(1), Refusal::NoMessage));
    }
    match Table::read(asked, &schema, root, text, words, pool) {
        Ok(table) => Ok(carried(out, asked, &table, &before, more, extra, shown)),
        Err(refused) => Ok(refusal::of_read(
            out,
            asked.file(2),
            asked,
            &schema,
            root,
            text,
            refused,
        )),
    }
}
