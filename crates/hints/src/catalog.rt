// The records of a schema by any index: there may be none of it.
use definitions::{Field, Member, Span, kinds};
use records::Schema;
use std::ops::Range;

// What names belong to in a schema: a message has its fields, an enum its values.
#[derive(Clone, Copy, PartialEq, Eq)]
pub enum Owner {
    Message,
    Enum,
}

fn indices(run: Span) -> Range<usize> {
    run.first..run.first.saturating_add(run.count)
}

impl Owner {
    // What the fields of a kind refer to, if it is a message or an enum.
    // Kept: the kind is a number, as definitions' kinds are.
    pub fn of_kind(kind: u8) -> Option<Owner> {
        match kind {
            kinds::MESSAGE => Some(Owner::Message),
            kinds::ENUM => Some(Owner::Enum),
            _ => None,
        }
    }

    // The kind of the fields that refer to one.
    pub fn kind(self) -> u8 {
        match self {
            Owner::Message => kinds::MESSAGE,
            Owner::Enum => kinds::ENUM,
        }
    }

    // How many messages, or enums, there are.
    pub fn count(self, schema: &Schema) -> usize {
        match self {
            Owner::Message => schema.message_count(),
            Owner::Enum => schema.enum_count(),
        }
    }

    // The fields of a message, or the values of an enum.
    pub fn run(self, schema: &Schema, index: usize) -> Range<usize> {
        match self {
            Owner::Message if index < schema.message_count() => indices(schema.message(index)),
            Owner::Enum if index < schema.enum_count() => indices(schema.enumeration(index)),
            _ => 0..0,
        }
    }

    // A field's name, or an enum value's.
    pub fn name<'a>(self, schema: &Schema<'a>, index: usize) -> &'a [u8] {
        match self {
            Owner::Message if index < schema.field_count() => schema.field_name(index),
            Owner::Enum if index < schema.value_count() => schema.member_name(index),
            _ => &[],
        }
    }
}

pub fn field(schema: &Schema, index: usize) -> Option<Field> {
    if index < schema.field_count() {
        Some(schema.field(index))
    } else {
        None
    }
}

pub fn member(schema: &Schema, index: usize) -> Option<Member> {
    if index < schema.value_count() {
        Some(schema.member(index))
    } else {
        None
    }
}

// The field of that name in a message.
pub fn find_field(schema: &Schema, index: usize, name: &[u8]) -> Option<usize> {
    if index < schema.message_count() {
        lookup::find_field(schema, index, 0, name)
    } else {
        None
    }
}
