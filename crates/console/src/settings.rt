// `ventro check`, `print` and `compact SCHEMA TEXT`: does this logger take this file, and how would it show the settings?
use crate::table::Table;
use definitions::refusals::Refusal;
use hints::catalog::Owner;
use hints::titles;
use records::Schema;
use report::call::{Asked, Command};
use report::failure::Failure;
use report::rooms::{Logger, Rooms};
use report::verdict::Verdict;
use report::{files, refusal};
use streams::line;
use streams::out::Out;
use text_format::Style;

// The schema that the call's file of number k holds.
pub(crate) fn opened<'a, 'r>(
    asked: &Asked<'a>,
    k: usize,
    image: &'r [u8],
) -> Result<Schema<'r>, Failure<'a>> {
    match schema::open(image) {
        Some(schema) => Ok(schema),
        None => Err(Failure::Schema(asked.file(k), Refusal::BadSchema)),
    }
}

// The message that is asked for: the first where none is named.
pub(crate) fn root_of<'a>(
    asked: &Asked<'a>,
    k: usize,
    schema: &Schema,
) -> Result<usize, Failure<'a>> {
    let Some(name) = asked.root else {
        return Ok(0);
    };
    match titles::message_of(schema, name) {
        Some(root) => Ok(root),
        None => Err(Failure::Schema(asked.file(k), Refusal::NoMessage)),
    }
}

// Puts out what a table holds.
pub(crate) fn put(
    out: &mut Out,
    path: &[u8],
    asked: &Asked,
    table: &Table,
    shown: &mut [u8],
) -> Verdict {
    let style = match asked.command {
        Some(Command::Compact) => Style::Compact,
        _ => Style::Pretty,
    };
    match table.print(style, shown) {
        Ok(n) => {
            out.bytes(line::front(shown, n));
            if style == Style::Compact {
                out.byte(b'\n');
            }
            Verdict::Taken
        }
        Err(refused) => {
            refusal::unplaced(out, path, refused, asked);
            Verdict::Refused
        }
    }
}

// What was read: whether required fields are there, if that is asked, and how many values there are, or how they are shown.
fn made(out: &mut Out, asked: &Asked, schema: &Schema, table: &Table, shown: &mut [u8]) -> Verdict {
    let path = asked.file(1);
    if asked.command != Some(Command::Check) {
        return put(out, path, asked, table, shown);
    }
    if asked.is_required {
        if let Some(i) = table.missing() {
            refusal::missing(out, path, Owner::Message.name(schema, i));
            return Verdict::Refused;
        }
    }
    out.bytes(path);
    let values = table.values();
    out.print(format_args!(": ok, {values}\n"));
    Verdict::Taken
}

// `check SCHEMA TEXT [--root NAME] [--required] [--values N] [--bytes N]`, `print` and `compact SCHEMA TEXT [--root NAME]`
pub(crate) fn settings<'a>(
    out: &mut Out,
    asked: &Asked<'a>,
    rooms: &mut Rooms,
) -> Result<Verdict, Failure<'a>> {
    let has_check_options = asked.is_required || asked.has_limits();
    if asked.is_wrong
        || asked.files != 2
        || asked.command != Some(Command::Check) && has_check_options
    {
        return Err(Failure::Usage(asked.command));
    }
    let Rooms {
        text,
        logger: Logger { image, words, pool },
        shown,
        ..
    } = rooms;
    let image = files::load(out.rt, asked, 0, image)?;
    let text = files::load(out.rt, asked, 1, text)?;
    let schema = opened(asked, 0, image)?;
    let root = root_of(asked, 0, &schema)?;
    match Table::read(asked, &schema, root, text, words, pool) {
        Ok(table) => Ok(made(out, asked, &schema, &table, shown)),
        Err(refused) => Ok(refusal::of_read(
            out,
            asked.file(1),
            asked,
            &schema,
            root,
            text,
            refused,
        )),
    }
}
