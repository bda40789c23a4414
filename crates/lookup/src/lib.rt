// Lookup in a schema: a field by its name in a message, a value by its name or its number in an enum.
#![tactic(auto)]

ghost use Rattle.std.specs.Prelude.{◌≡◌, ◌<◌};
ghost use Rattle.definitions.specs.Image as spec;
ghost use Rattle.records.specs.Known.{option_of};

use records::{Schema, same};

// The field of that name in the message `index`: the guess where it is that field, as it is where fields repeat, else by search.
pub fn find_field(schema: &Schema, index: usize, guess: usize, name: &[u8]) -> Option<usize>
    requires { index < spec.message_count schema.now.image.now }
    ensures { result ≡ option_of (spec.find_field schema.now.image.now index name.now) }
{
    let run = schema.message(index);
    let end = run.first + run.count;
    if run.first <= guess && guess < end && same(schema.field_name(guess), name) {
        return Some(guess);
    }
    (run.first..end).find(|i| same(schema.field_name(*i), name))
}

// The value of that name in the enum `index`.
pub fn find_member(schema: &Schema, index: usize, name: &[u8]) -> Option<usize>
    requires { index < spec.enum_count schema.now.image.now }
    ensures { result ≡ option_of (spec.find_member schema.now.image.now index name.now) }
{
    let run = schema.enumeration(index);
    let end = run.first + run.count;
    (run.first..end).find(|i| same(schema.member_name(*i), name))
}

// The value of that number in the enum `index`.
pub fn find_number(schema: &Schema, index: usize, number: u32) -> Option<usize>
    requires { index < spec.enum_count schema.now.image.now }
    ensures { result ≡ option_of (spec.find_number schema.now.image.now index number) }
{
    let run = schema.enumeration(index);
    let end = run.first + run.count;
    (run.first..end).find(|i| schema.member(*i).number == number)
}
