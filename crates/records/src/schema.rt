// An accepted image with its layout: its counts, its records and their names.
ghost use Rattle.std.specs.Prelude.{◌≡◌, ◌<◌};
ghost use Rattle.definitions.specs.Image as spec;
ghost use Rattle.records.specs.Known.{Known};

use crate::{Layout, Tables};
use definitions::{Field, Member, Span};

// Kept: the methods of its tables over again, which ask of an index alone; a caller that took the tables would have to show again what is known.
#[derive(Clone, Copy)]
pub struct Schema<'a> {
    pub image: &'a [u8],
    pub layout: Layout,
    pub ghost known: { Known image.now layout },
}

#[tactic(auto, using(crate::proofs::Accepted::known_steps))]
impl<'a> Schema<'a> {
    fn tables(&self) -> Tables<'a>
        ensures { result.image.now ≡ self.now.image.now }
    {
        Tables {
            image: self.image,
            layout: self.layout,
        }
    }

    // ---- the counts

    pub fn message_count(&self) -> usize
        ensures { result ≡ spec.message_count self.now.image.now }
    {
        self.tables().message_count()
    }

    pub fn field_count(&self) -> usize
        ensures { result ≡ spec.field_count self.now.image.now }
    {
        self.tables().field_count()
    }

    pub fn enum_count(&self) -> usize
        ensures { result ≡ spec.enum_count self.now.image.now }
    {
        self.tables().enum_count()
    }

    pub fn value_count(&self) -> usize
        ensures { result ≡ spec.value_count self.now.image.now }
    {
        self.tables().value_count()
    }

    // ---- the records by index

    pub fn message(&self, index: usize) -> Span
        requires { index < spec.message_count self.now.image.now }
        ensures { result ≡ spec.message self.now.image.now index }
    {
        self.tables().message(index)
    }

    pub fn enumeration(&self, index: usize) -> Span
        requires { index < spec.enum_count self.now.image.now }
        ensures { result ≡ spec.enumeration self.now.image.now index }
    {
        self.tables().enumeration(index)
    }

    pub fn field(&self, index: usize) -> Field
        requires { index < spec.field_count self.now.image.now }
        ensures { result ≡ spec.field self.now.image.now index }
    {
        self.tables().field(index)
    }

    pub fn member(&self, index: usize) -> Member
        requires { index < spec.value_count self.now.image.now }
        ensures { result ≡ spec.member self.now.image.now index }
    {
        self.tables().member(index)
    }

    // ---- the names of a field and of an enum value

    pub fn field_name(&self, index: usize) -> &'a [u8]
        requires { index < spec.field_count self.now.image.now }
        ensures { result.now ≡ spec.field_name self.now.image.now index }
    {
        self.tables().field_name(index)
    }

    pub fn member_name(&self, index: usize) -> &'a [u8]
        requires { index < spec.value_count self.now.image.now }
        ensures { result.now ≡ spec.member_name self.now.image.now index }
    {
        self.tables().member_name(index)
    }
}
