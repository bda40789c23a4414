// The acceptance rule for one record after another: names, key types, types and references, zero bits.
#![tactic(auto)]

ghost use Rattle.std.specs.Prelude.{◌≡◌, ◌<◌};
ghost use Rattle.definitions.specs.Basics as basic;
ghost use Rattle.definitions.specs.Image as spec;

use definitions::{Field, kinds, labels};
use records::Tables;

// ---- names: a letter or `_`, then letters, digits, `_`

fn letter(b: u8) -> bool
    ensures { result ≡ spec.letter b }
{
    matches!(b, b'a'..=b'z' | b'A'..=b'Z' | b'_')
}

fn word(b: u8) -> bool
    ensures { result ≡ spec.word b }
{
    letter(b) || matches!(b, b'0'..=b'9')
}

fn words(text: &[u8]) -> bool
    ensures { result ≡ basic.each spec.word text.now }
{
    text.iter().all(|b| word(*b))
}

#[tactic(auto, unfolding(definitions::specs::Image::identifier))]
fn identifier(text: &[u8]) -> bool
    ensures { result ≡ spec.identifier text.now }
{
    match text {
        [first, rest @ ..] => letter(*first) && words(rest),
        [] => false,
    }
}

// A name lies inside the name bytes.
#[tactic(auto, unfolding(definitions::specs::Image::name_good))]
fn name_good(tables: &Tables, start: usize, count: usize) -> bool
    ensures { result ≡ spec.name_good tables.now.image.now start count }
{
    let names = tables.name_count();
    start <= names && count <= names - start && identifier(tables.name(start, count))
}

// ---- fields and values

// The key type is 1 to 6, i32 to string, for a map, else 0.
fn key_good(field: Field) -> bool
    ensures { result ≡ spec.key_good field }
{
    match field.label {
        labels::MAP => matches!(field.key, kinds::I32..=kinds::STRING),
        _ => field.key == 0,
    }
}

// Types 1 to 9; the reference is an enum or message that exists for types 8 and 9, else 0.
#[tactic(auto, unfolding(definitions::specs::Image::type_good))]
fn type_good(tables: &Tables, field: Field) -> bool
    ensures { result ≡ spec.type_good tables.now.image.now field }
{
    match field.kind {
        kinds::ENUM => field.reference < tables.enum_count(),
        kinds::MESSAGE => field.reference < tables.message_count(),
        kinds::I32..=kinds::BYTES => field.reference == 0,
        _ => false,
    }
}

// A field: a good name, a number from 1 on, a good key type and type, and zero bits at the end.
#[tactic(auto, using(records::proofs::Room::field_number_most), unfolding(definitions::specs::Image::field_good))]
fn field_good(tables: &Tables, index: usize) -> bool
    requires { index < spec.field_count tables.now.image.now }
    ensures { result ≡ spec.field_good tables.now.image.now index }
{
    let record = tables.field(index);
    // 29 bits hold no number above the greatest.
    name_good(tables, record.start, record.length)
        && record.number >= 1
        && key_good(record)
        && type_good(tables, record)
        && tables.field_zero(index) == 0
}

// An enum value: a good name, and zero bits at the end.
#[tactic(auto, unfolding(definitions::specs::Image::member_good))]
fn member_good(tables: &Tables, index: usize) -> bool
    requires { index < spec.value_count tables.now.image.now }
    ensures { result ≡ spec.member_good tables.now.image.now index }
{
    let record = tables.member(index);
    name_good(tables, record.start, record.length) && tables.member_zero(index) == 0
}

// Each field, and each enum value, of the whole image.
pub fn fields_good(tables: &Tables) -> bool
    ensures { result ≡ basic.all (spec.field_count tables.now.image.now) (spec.field_good tables.now.image.now) }
{
    (0..tables.field_count()).all(|i| field_good(tables, i))
}

pub fn members_good(tables: &Tables) -> bool
    ensures { result ≡ basic.all (spec.value_count tables.now.image.now) (spec.member_good tables.now.image.now) }
{
    (0..tables.value_count()).all(|i| member_good(tables, i))
}
