// Names and numbers are distinct within a message and within an enum.
#![tactic(auto)]

mod kept;
mod table;

ghost use Rattle.std.specs.Prelude.{◌≡◌, ◌+◌, ◌≤◌, ◌<◌};
ghost use Rattle.definitions.specs.Basics as basic;
ghost use Rattle.definitions.specs.Image as spec;
ghost use Rattle.distinct.specs.Seen.{agree, new};

use definitions::Span;
use kept::Kept;
use records::same;
pub use table::{Fields, Members, Table};

// None of the `index` records from `first` on agrees with the one after them.
fn apart<T: Table>(table: &T, first: usize, index: usize) -> bool
    requires { first + index < T.size table.now }
    ensures { result ≡ new (T.name_of table.now) (T.number_of table.now) first index }
{
    let own = table.number(first + index);
    let text = table.name(first + index);
    for i in 0..index {
        if table.number(first + i) == own || same(table.name(first + i), text) {
            return false;
        }
    }
    true
}

// The records of a run agree in no pair. Most need no comparison, by what is kept of those before them.
fn run_distinct<T: Table>(table: &T, run: Span) -> bool
    requires { run.first + run.count ≤ T.size table.now }
    ensures { result ≡ spec.distinct (agree (T.name_of table.now) (T.number_of table.now)) run }
{
    let mut kept = Kept { marks: 0, most: 0 };
    for j in 0..run.count {
        let text = table.name(run.first + j);
        let number = table.number(run.first + j);
        if !kept.lacks(text, number) && !apart(table, run.first, j) {
            return false;
        }
        kept = kept.with(text, number);
    }
    true
}

// All of the runs.
pub fn all_distinct<T: Table>(table: &T) -> bool
    ensures { result ≡ basic.all (T.run_count table.now) (λ i. spec.distinct (agree (T.name_of table.now) (T.number_of table.now)) (T.run_of table.now i)) }
{
    for i in 0..table.runs() {
        if !run_distinct(table, table.run(i)) {
            return false;
        }
    }
    true
}
