// The phases, a word after each.
use definitions::Refused;
use definitions::refusals::Refusal;

// A word that can't be written is not counted, which shows.
fn mark(rt: HostRuntime, word: &[u8]) {
    let _ = rt.stdout().write_all(word);
}

// Ends a phase, which is to answer and not to refuse.
fn done<T: Drop>(rt: HostRuntime, word: &[u8], answer: Result<T, Refused>) {
    if answer.is_ok() {
        mark(rt, word);
    } else {
        mark(rt, b"refused\n");
    }
}

// The schema check alone: no schema has a message 256.
fn schema(rt: HostRuntime, word: &[u8], image: &[u8], nodes: &[u32], pool: &[u8]) {
    match text_format::check_required(image, 256, nodes, pool) {
        Ok(()) => mark(rt, b"refused\n"),
        Err(refused) if refused.why == Refusal::NoMessage => mark(rt, word),
        Err(_) => (),
    }
}

pub fn all(
    rt: HostRuntime,
    image: &[u8],
    text: &[u8],
    nodes: &mut [u32],
    pool: &mut [u8],
    buffer: &mut [u8],
) {
    mark(rt, b"begin\n");
    mark(rt, b"nothing\n");
    let read = text_format::read(image, 0, text, nodes, pool);
    done(rt, b"read\n", read);
    if read.is_err() {
        return;
    }
    done(
        rt,
        b"compact\n",
        text_format::print(image, 0, nodes, pool, buffer),
    );
    done(
        rt,
        b"pretty\n",
        text_format::print_pretty(image, 0, nodes, pool, buffer),
    );
    done(
        rt,
        b"required\n",
        text_format::check_required(image, 0, nodes, pool),
    );
    schema(rt, b"schema\n", image, nodes, pool);
}
