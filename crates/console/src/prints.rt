// Two prints held to each other.
use report::place::MOST_COLUMNS;
use streams::line;
use streams::out::Out;

// Where two prints first differ, if they do: at the end of the shorter at the latest.
pub(crate) fn parting(a: &[u8], b: &[u8]) -> Option<usize> {
    let shorter = a.len().min(b.len());
    let differing = a.iter().zip(b).position(|(x, y)| *x != *y);
    if differing.is_none() && a.len() != b.len() {
        return Some(shorter);
    }
    differing
}

// `  it shows:` and the line of a print that an index stands on, if there is one.
pub(crate) fn line_shown(out: &mut Out, path: &[u8], print: &[u8], i: usize) {
    let row = line::front(words::line(print, i), MOST_COLUMNS - 4);
    out.bytes(b"  ");
    out.bytes(path);
    if row.is_empty() {
        out.bytes(b" shows nothing there\n");
    } else {
        out.bytes(b" shows:\n    ");
        out.bytes(row);
        out.byte(b'\n');
    }
}
