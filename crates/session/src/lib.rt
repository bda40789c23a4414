// The line protocol: requests on standard input, one to a line, and their answers on standard output. The rooms are lent.
#![tactic(auto)]

mod answers;
mod held;
mod hex;
mod lent;
mod request;
pub mod rooms;
mod state;
mod tell;

use rooms::Rooms;
use state::State;
use streams::lines::Lines;
use streams::out::Out;

// Answers the requests of standard input to its end. What goes over its room is no request.
//
// Nothing says that the input ends, so the turns are counted up to a number that no run uses up.
pub fn answer_all(out: &mut Out, rooms: &mut Rooms) {
    let Rooms {
        line: room,
        image,
        older,
        table,
        pool,
        words,
        bytes,
    } = rooms;
    let mut lines = Lines::new(out.rt);
    let mut state = State::new(image, older, table, pool);
    for _ in 0..u64::MAX {
        let Some(line) = lines.next(room) else {
            return;
        };
        if answers::answer(&mut state, out, room, line, words, bytes).is_none() {
            tell::no_request(out, lines.count());
        }
        out.flush();
    }
}
