// The records of a schema image (document 01, "Schema image"): the header's counts and the layout that they give, messages, fields, enums
// and enum values, and their names.
#![tactic(auto)]

mod names;
mod records;
mod schema;
mod tables;

pub use names::same;
pub use records::{
    enum_count, field_count, field_zero, layout_of, member_zero, message_count, name_count,
    span_at, value_count,
};
pub use schema::Schema;
pub use tables::Tables;

// The bytes of the header, of a message or an enum, of a field, and of an enum value.
pub const HEADER: usize = 8;

pub const RUN: usize = 3;

pub const FIELD: usize = 9;

pub const VALUE: usize = 7;

// Where the records after the messages, and the name bytes, begin in an image.
#[derive(Clone, Copy)]
pub struct Layout {
    pub fields: usize,
    pub enums: usize,
    pub values: usize,
    pub names: usize,
}
