// The header's counts, the layout that they give, and the records.
ghost use Rattle.std.specs.Prelude.{◌≡◌, ◌+◌, ◌≤◌, length, drop};
ghost use Rattle.definitions.specs.Image as spec;
ghost use Rattle.records.specs.Known.{layout_of};

use crate::{FIELD, HEADER, Layout, RUN, VALUE};
use bits::{bits, cut, load};
use definitions::{Field, Member, Span};

// ---- header, 64 bits: form 4, messages 8, fields 12, enums 8, enum values 12, name bytes 16, zero 4

#[tactic(auto, unfolding(definitions::specs::Image::message_count))]
pub fn message_count(image: &[u8]) -> usize
    requires { 8 ≤ length image.now }
    ensures { result ≡ spec.message_count image.now }
{
    bits(image, 4, 8) as usize
}

#[tactic(auto, unfolding(definitions::specs::Image::field_count))]
pub fn field_count(image: &[u8]) -> usize
    requires { 8 ≤ length image.now }
    ensures { result ≡ spec.field_count image.now }
{
    bits(image, 12, 12) as usize
}

#[tactic(auto, unfolding(definitions::specs::Image::enum_count))]
pub fn enum_count(image: &[u8]) -> usize
    requires { 8 ≤ length image.now }
    ensures { result ≡ spec.enum_count image.now }
{
    bits(image, 24, 8) as usize
}

#[tactic(auto, unfolding(definitions::specs::Image::value_count))]
pub fn value_count(image: &[u8]) -> usize
    requires { 8 ≤ length image.now }
    ensures { result ≡ spec.value_count image.now }
{
    bits(image, 32, 12) as usize
}

#[tactic(auto, unfolding(definitions::specs::Image::name_count))]
pub fn name_count(image: &[u8]) -> usize
    requires { 8 ≤ length image.now }
    ensures { result ≡ spec.name_count image.now }
{
    bits(image, 44, 16) as usize
}

// The records stand in the header's order: messages of 3 bytes, fields of 9, enums of 3, enum values of 7; then the name bytes.
#[tactic(auto, using(crate::proofs::Room::counts_small), unfolding(definitions::specs::Image::messages_at, definitions::specs::Image::fields_at, definitions::specs::Image::enums_at, definitions::specs::Image::values_at, definitions::specs::Image::names_at, crate::specs::Known::layout_of))]
pub fn layout_of(image: &[u8]) -> Layout
    requires { 8 ≤ length image.now }
    ensures { result ≡ layout_of image.now }
{
    let fields = HEADER + RUN * message_count(image);
    let enums = fields + FIELD * field_count(image);
    let values = enums + RUN * enum_count(image);
    Layout {
        fields: fields,
        enums: enums,
        values: values,
        names: values + VALUE * value_count(image),
    }
}

// ---- records

// Kept: `as`, which is proved to lose nothing; `u8::try_from(..).unwrap()` says that in more words.

// A message or an enum, 24 bits: first 12, count 12.
pub fn span_at(image: &[u8], at: usize) -> Span
    requires { at + 3 ≤ length image.now }
    ensures { result ≡ spec.span_of (drop at image.now) }
{
    let word = load(image, at, 3);
    Span {
        first: cut(word, 12, 12) as usize,
        count: cut(word, 0, 12) as usize,
    }
}

// A field, 72 bits: name start 16, name length 6, number 29, label 2, key type 4, type 4, reference 8, zero 3.
pub(crate) fn field_at(image: &[u8], at: usize) -> Field
    requires { at + 9 ≤ length image.now }
    ensures { result ≡ spec.field_of (drop at image.now) }
{
    let word = load(image, at, 8);
    Field {
        start: cut(word, 48, 16) as usize,
        length: cut(word, 42, 6) as usize,
        number: cut(word, 13, 29) as u32,
        label: cut(word, 11, 2) as u8,
        key: cut(word, 7, 4) as u8,
        kind: cut(word, 3, 4) as u8,
        reference: cut(load(image, at + 7, 2), 3, 8) as usize,
    }
}

// An enum value, 56 bits: name start 16, name length 6, number 32, zero 2.
pub(crate) fn member_at(image: &[u8], at: usize) -> Member
    requires { at + 7 ≤ length image.now }
    ensures { result ≡ spec.member_of (drop at image.now) }
{
    let word = load(image, at, 7);
    Member {
        start: cut(word, 40, 16) as usize,
        length: cut(word, 34, 6) as usize,
        number: cut(word, 2, 32) as u32,
    }
}

// The zero bits at the end of a field's record, and of an enum value's.
pub fn field_zero(image: &[u8], at: usize) -> u64
    requires { at + 9 ≤ length image.now }
    ensures { result ≡ spec.field_zero (drop at image.now) }
{
    cut(load(image, at + 8, 1), 0, 3)
}

pub fn member_zero(image: &[u8], at: usize) -> u64
    requires { at + 7 ≤ length image.now }
    ensures { result ≡ spec.member_zero (drop at image.now) }
{
    cut(load(image, at + 6, 1), 0, 2)
}
