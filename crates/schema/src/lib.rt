// The acceptance rule as a whole: the header, the runs of records, and the check.
#![tactic(auto)]

ghost use Rattle.std.specs.Prelude.{◌≡◌, ◌+◌, ◌*◌, ◌≤◌, ◌<◌, leb, length, drop, true, false, MatchOption};
ghost use Rattle.definitions.specs.Basics as basic;
ghost use Rattle.definitions.specs.Image as spec;

use bits::bits;
use distinct::{Fields, Members, all_distinct};
use good_records::{fields_good, members_good};
use records::{HEADER, RUN, Schema, Tables, layout_of, message_count, name_count, span_at};

// Form 1, zero bits, at least one message, exactly as long as the counts say.
#[tactic(auto, using(records::proofs::Room::image_length_small), unfolding(definitions::specs::Image::header_good, definitions::specs::Image::form, definitions::specs::Image::image_length, records::specs::Known::layout_of))]
fn header_good(image: &[u8]) -> bool
    ensures { result ≡ spec.header_good image.now }
{
    image.len() >= HEADER
        && bits(image, 0, 4) == 1
        && bits(image, 60, 4) == 0
        && message_count(image) >= 1
        && image.len() == layout_of(image).names + name_count(image)
}

// ---- runs

// The `count` runs at `at` begin at running totals, which use up a table of `size` records.
fn runs_good(image: &[u8], at: usize, count: usize, size: usize) -> bool
    requires { (count < 256) × (at + 3 * count ≤ length image.now) }
    ensures { result ≡ spec.running (λ i. spec.span_of (drop (at + 3 * i) image.now)) count size }
{
    let mut total: usize = 0;
    for i in 0..count {
        let run = span_at(image, at + RUN * i);
        if run.first != total {
            return false;
        }
        total += run.count;
    }
    total == size
}

// The runs of fields, and those of enum values.
fn message_runs_good(tables: &Tables) -> bool
    ensures { result ≡ spec.running (spec.message tables.now.image.now) (spec.message_count tables.now.image.now) (spec.field_count tables.now.image.now) }
{
    runs_good(
        tables.image,
        HEADER,
        tables.message_count(),
        tables.field_count(),
    )
}

fn enum_runs_good(tables: &Tables) -> bool
    ensures { result ≡ spec.running (spec.enumeration tables.now.image.now) (spec.enum_count tables.now.image.now) (spec.value_count tables.now.image.now) }
{
    runs_good(
        tables.image,
        tables.layout.enums,
        tables.enum_count(),
        tables.value_count(),
    )
}

// Each enum has at least one value.
fn enums_filled(tables: &Tables) -> bool
    ensures { result ≡ basic.all (spec.enum_count tables.now.image.now) (λ i. leb 1 (spec.enumeration tables.now.image.now i).count) }
{
    (0..tables.enum_count()).all(|i| tables.enumeration(i).count >= 1)
}

// ---- the rule

// Runs, then records one by one, then those of a message or an enum against each other.
#[tactic(auto, unfolding(definitions::specs::Image::records_good, definitions::specs::Image::fields_agree, definitions::specs::Image::members_agree, distinct::specs::Seen::agree))]
fn records_good(tables: &Tables) -> bool
    ensures { result ≡ spec.records_good tables.now.image.now }
{
    message_runs_good(tables)
        && enum_runs_good(tables)
        && enums_filled(tables)
        && fields_good(tables)
        && members_good(tables)
        && all_distinct(&Fields { tables: *tables })
        && all_distinct(&Members { tables: *tables })
}

// The bytes as a schema where they are a schema image: of any bytes, with nothing asked of them.
pub fn open<'a>(image: &'a [u8]) -> Option<Schema<'a>>
    ensures { MatchOption result (spec.accepted image.now ≡ false) (λ schema. (spec.accepted image.now ≡ true) × (schema.image.now ≡ image.now)) }
{
    if !header_good(image) {
        return None;
    }
    let layout = layout_of(image);
    if !records_good(&Tables { image, layout }) {
        return None;
    }
    Some(Schema { image, layout })
}

// Whether the bytes are a schema image.
pub fn check(image: &[u8]) -> bool
    ensures { result ≡ spec.accepted image.now }
{
    open(image).is_some()
}
