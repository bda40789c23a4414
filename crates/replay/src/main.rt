// Answers requests of the line protocol on standard input, one line each, on standard output.
#![tactic(auto)]

use session::rooms;
use streams::out::Out;

fn main(rt: HostRuntime) {
    let mut out = Out::new(rt);
    let mut rooms = rooms::EMPTY;
    session::answer_all(&mut out, &mut rooms);
}
