// The command that a person uses: `ventro help` tells what it does.
#![tactic(auto)]

mod calls;

use report::rooms;
use streams::out::Out;

fn main(rt: HostRuntime) {
    let mut out = Out::new(rt);
    let mut call = [0; calls::CALL_LENGTH];
    let mut rooms = rooms::EMPTY;
    let verdict = calls::all(&mut out, &mut call, &mut rooms);
    calls::tell(rt, verdict);
}
