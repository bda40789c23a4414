// An image that is as long as its counts say, with its layout: its counts, its records by index and its names.
ghost use Rattle.std.specs.Prelude.{◌≡◌, ◌+◌, ◌≤◌, ◌<◌};
ghost use Rattle.definitions.specs.Image as spec;
ghost use Rattle.records.specs.Known.{Placed};

use crate::records::{self, field_at, field_zero, member_at, member_zero, span_at};
use crate::{FIELD, HEADER, Layout, RUN, VALUE};
use definitions::{Field, Member, Span};

#[derive(Clone, Copy)]
pub struct Tables<'a> {
    pub image: &'a [u8],
    pub layout: Layout,
    pub ghost placed: { Placed image.now layout },
}

#[tactic(auto, using(crate::proofs::Room::rooms))]
impl<'a> Tables<'a> {
    // ---- the counts

    pub fn message_count(&self) -> usize
        ensures { result ≡ spec.message_count self.now.image.now }
    {
        records::message_count(self.image)
    }

    pub fn field_count(&self) -> usize
        ensures { result ≡ spec.field_count self.now.image.now }
    {
        records::field_count(self.image)
    }

    pub fn enum_count(&self) -> usize
        ensures { result ≡ spec.enum_count self.now.image.now }
    {
        records::enum_count(self.image)
    }

    pub fn value_count(&self) -> usize
        ensures { result ≡ spec.value_count self.now.image.now }
    {
        records::value_count(self.image)
    }

    pub fn name_count(&self) -> usize
        ensures { result ≡ spec.name_count self.now.image.now }
    {
        records::name_count(self.image)
    }

    // ---- records by index

    pub fn message(&self, index: usize) -> Span
        requires { index < spec.message_count self.now.image.now }
        ensures { result ≡ spec.message self.now.image.now index }
    {
        span_at(self.image, HEADER + RUN * index)
    }

    pub fn enumeration(&self, index: usize) -> Span
        requires { index < spec.enum_count self.now.image.now }
        ensures { result ≡ spec.enumeration self.now.image.now index }
    {
        span_at(self.image, self.layout.enums + RUN * index)
    }

    pub fn field(&self, index: usize) -> Field
        requires { index < spec.field_count self.now.image.now }
        ensures { result ≡ spec.field self.now.image.now index }
    {
        field_at(self.image, self.layout.fields + FIELD * index)
    }

    pub fn member(&self, index: usize) -> Member
        requires { index < spec.value_count self.now.image.now }
        ensures { result ≡ spec.member self.now.image.now index }
    {
        member_at(self.image, self.layout.values + VALUE * index)
    }

    // The zero bits at the end of a field's record, and of an enum value's.
    pub fn field_zero(&self, index: usize) -> u64
        requires { index < spec.field_count self.now.image.now }
        ensures { result ≡ spec.field_zero (spec.field_at self.now.image.now index) }
    {
        field_zero(self.image, self.layout.fields + FIELD * index)
    }

    pub fn member_zero(&self, index: usize) -> u64
        requires { index < spec.value_count self.now.image.now }
        ensures { result ≡ spec.member_zero (spec.member_at self.now.image.now index) }
    {
        member_zero(self.image, self.layout.values + VALUE * index)
    }

    // ---- names: parts of the image from the middle, compared there

    // The `count` name bytes from the `start`th on.
    pub fn name(&self, start: usize, count: usize) -> &'a [u8]
        requires { start + count ≤ spec.name_count self.now.image.now }
        ensures { result.now ≡ spec.name_text self.now.image.now start count }
    {
        let at = self.layout.names + start;
        let end = at + count;
        &self.image[at..end]
    }

    // The name of a field, and of an enum value, whose record says that it lies inside the name bytes.
    #[tactic(auto, using(crate::proofs::Room::rooms), unfolding(definitions::specs::Image::field_name))]
    pub fn field_name(&self, index: usize) -> &'a [u8]
        requires { (index < spec.field_count self.now.image.now) × ((spec.field self.now.image.now index).start + (spec.field self.now.image.now index).length ≤ spec.name_count self.now.image.now) }
        ensures { result.now ≡ spec.field_name self.now.image.now index }
    {
        let record = self.field(index);
        self.name(record.start, record.length)
    }

    #[tactic(auto, using(crate::proofs::Room::rooms), unfolding(definitions::specs::Image::member_name))]
    pub fn member_name(&self, index: usize) -> &'a [u8]
        requires { (index < spec.value_count self.now.image.now) × ((spec.member self.now.image.now index).start + (spec.member self.now.image.now index).length ≤ spec.name_count self.now.image.now) }
        ensures { result.now ≡ spec.member_name self.now.image.now index }
    {
        let record = self.member(index);
        self.name(record.start, record.length)
    }
}
