// A table of records that have a name and a number, parted into runs: the fields of an image by message, and its enum values by enum.
ghost use Rattle.std.specs.Prelude.{◌≡◌, ℕ, List, ◌+◌, ◌≤◌, ◌<◌, ◌^◌};
ghost use Rattle.definitions.specs.declared.Span.{Span};
ghost use Rattle.definitions.specs.Image as spec;
ghost use Rattle.records.specs.Known as known;
ghost use Rattle.records.proofs.Room.{field_count_fits, value_count_fits};

use definitions::Span;
use records::Tables;

pub trait Table {
    ghost size: { Self → ℕ };

    ghost name_of: { Self → ℕ → List ℕ };

    ghost number_of: { Self → ℕ → ℕ };

    ghost run_count: { Self → ℕ };

    ghost run_of: { Self → ℕ → Span };

    fn name(&self, index: usize) -> &[u8]
        requires { index < size self.now }
        ensures { result.now ≡ name_of self.now index };

    fn number(&self, index: usize) -> u32
        requires { index < size self.now }
        ensures { result ≡ number_of self.now index };

    fn runs(&self) -> usize
        ensures { result ≡ run_count self.now };

    fn run(&self, index: usize) -> Span
        requires { index < run_count self.now }
        ensures read { result ≡ run_of self.now index }
        ensures inside { result.first + result.count ≤ size self.now };

    ghost small: { (t : Self) → size t < 2 ^ 64 };
}

#[derive(Clone, Copy)]
pub struct Fields<'a> {
    pub tables: Tables<'a>,
    pub ghost good: { known.Fields tables.image.now tables.layout },
}

#[tactic(auto, using(records::proofs::Accepted::parts_steps))]
impl<'a> Table for Fields<'a> {
    ghost size = { λ t. spec.field_count t.tables.image.now };

    ghost name_of = { λ t. spec.field_name t.tables.image.now };

    ghost number_of = { λ t i. (spec.field t.tables.image.now i).number };

    ghost run_count = { λ t. spec.message_count t.tables.image.now };

    ghost run_of = { λ t. spec.message t.tables.image.now };

    ghost small = { λ t. field_count_fits t.tables.image.now };

    fn name(&self, index: usize) -> &[u8] {
        self.tables.field_name(index)
    }

    fn number(&self, index: usize) -> u32 {
        self.tables.field(index).number
    }

    fn runs(&self) -> usize {
        self.tables.message_count()
    }

    fn run(&self, index: usize) -> Span {
        self.tables.message(index)
    }
}

#[derive(Clone, Copy)]
pub struct Members<'a> {
    pub tables: Tables<'a>,
    pub ghost good: { known.Members tables.image.now tables.layout },
}

#[tactic(auto, using(records::proofs::Accepted::parts_steps))]
impl<'a> Table for Members<'a> {
    ghost size = { λ t. spec.value_count t.tables.image.now };

    ghost name_of = { λ t. spec.member_name t.tables.image.now };

    ghost number_of = { λ t i. (spec.member t.tables.image.now i).number };

    ghost run_count = { λ t. spec.enum_count t.tables.image.now };

    ghost run_of = { λ t. spec.enumeration t.tables.image.now };

    ghost small = { λ t. value_count_fits t.tables.image.now };

    fn name(&self, index: usize) -> &[u8] {
        self.tables.member_name(index)
    }

    fn number(&self, index: usize) -> u32 {
        self.tables.member(index).number
    }

    fn runs(&self) -> usize {
        self.tables.enum_count()
    }

    fn run(&self, index: usize) -> Span {
        self.tables.enumeration(index)
    }
}
