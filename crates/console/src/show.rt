// `ventro show SCHEMA`: the messages, fields and enums of an image, in the manner of a .proto file.
use crate::settings;
use definitions::{Field, kinds, labels};
use hints::catalog::Owner;
use hints::{catalog, titles};
use records::Schema;
use report::call::Asked;
use report::failure::Failure;
use report::files;
use report::place::MOST_COLUMNS;
use report::rooms::Rooms;
use report::verdict::Verdict;
use streams::out::Out;

// What a field's line has beside its names at the most: indent, label, a map's key, the number.
const LINE_WIDTH: usize = 40;

// A kind's name; of an enum or a message, which has a number, the front of one.
// Kept: the kind is a number, as definitions' kinds are.
fn kind_name(kind: u8) -> &'static str {
    match kind {
        kinds::I32 => "int32",
        kinds::I64 => "int64",
        kinds::U32 => "uint32",
        kinds::U64 => "uint64",
        kinds::BOOL => "bool",
        kinds::STRING => "string",
        kinds::BYTES => "bytes",
        kinds::ENUM => "Enum",
        kinds::MESSAGE => "Message",
        _ => "",
    }
}

// `  optional string`, `  map<string, Message7>`
fn put_type(out: &mut Out, field: &Field, title: &[u8]) {
    match field.label {
        labels::OPTIONAL => out.bytes(b"  optional "),
        labels::REQUIRED => out.bytes(b"  required "),
        labels::REPEATED => out.bytes(b"  repeated "),
        _ => {
            let key = kind_name(field.key);
            out.print(format_args!("  map<{key}, "));
        }
    }
    if title.is_empty() {
        out.print(kind_name(field.kind));
        if field.kind >= kinds::ENUM {
            out.print(field.reference);
        }
    }
    out.bytes(title);
    if field.label == labels::MAP {
        out.byte(b'>');
    }
}

// `  optional string name = 1;`, the name on a line of its own where both don't fit on one.
fn put_field(out: &mut Out, schema: &Schema, index: usize) {
    let Some(field) = catalog::field(schema, index) else {
        return;
    };
    let name = Owner::Message.name(schema, index);
    let title = titles::title_of(schema, field.kind, field.reference);
    put_type(out, &field, title);
    if title.len().saturating_add(name.len()) >= MOST_COLUMNS - LINE_WIDTH {
        out.bytes(b"\n     ");
    }
    out.byte(b' ');
    out.bytes(name);
    let number = field.number;
    out.print(format_args!(" = {number};\n"));
}

// `  ON = 7;`, a number in two's complement.
fn put_value(out: &mut Out, schema: &Schema, index: usize) {
    let Some(value) = catalog::member(schema, index) else {
        return;
    };
    out.bytes(b"  ");
    out.bytes(Owner::Enum.name(schema, index));
    let number = value.number.cast_signed();
    out.print(format_args!(" = {number};\n"));
}

// `message Settings {  // message 0`, or `enum Mode {`
fn put_head(out: &mut Out, schema: &Schema, owner: Owner, index: usize) {
    let title = titles::title_of(schema, owner.kind(), index);
    out.bytes(match owner {
        Owner::Message => b"\nmessage ".as_slice(),
        Owner::Enum => b"\nenum ".as_slice(),
    });
    if title.is_empty() {
        let name = kind_name(owner.kind());
        out.print(format_args!("{name}{index}"));
    }
    out.bytes(title);
    match owner {
        Owner::Message => out.print(format_args!(" {{  // message {index}\n")),
        Owner::Enum => out.bytes(b" {\n"),
    }
}

// All messages with their fields, or all enums with their values.
fn put_all(out: &mut Out, schema: &Schema, owner: Owner) {
    for index in 0..owner.count(schema) {
        put_head(out, schema, owner, index);
        for i in owner.run(schema, index) {
            match owner {
                Owner::Message => put_field(out, schema, i),
                Owner::Enum => put_value(out, schema, i),
            }
        }
        out.bytes(b"}\n");
    }
}

// `show SCHEMA`
pub(crate) fn show<'a>(
    out: &mut Out,
    asked: &Asked<'a>,
    rooms: &mut Rooms,
) -> Result<Verdict, Failure<'a>> {
    if asked.is_wrong
        || asked.files != 1
        || asked.is_required
        || asked.has_limits()
        || asked.root.is_some()
    {
        return Err(Failure::Usage(asked.command));
    }
    let image = files::load(out.rt, asked, 0, &mut rooms.logger.image)?;
    let schema = settings::opened(asked, 0, image)?;
    out.bytes(b"syntax = \"proto2\";\n");
    put_all(out, &schema, Owner::Message);
    put_all(out, &schema, Owner::Enum);
    Ok(Verdict::Taken)
}
