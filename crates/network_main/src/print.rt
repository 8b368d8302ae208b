// One line of the output.
use network::{Checked, Refused};
use std::io;

// A word and a number after it.
pub(crate) fn word(rt: &impl Print, text: &str, n: u64) -> io::Result<()> {
    print!(rt; "{text}{n}")
}

// `, byte B = X`: the byte that was set.
pub(crate) fn byte(rt: &impl Print, at: u8, x: u8) -> io::Result<()> {
    word(rt, ", byte ", u64::from(at))?;
    word(rt, " = ", u64::from(x))
}

// `: N P`, the answer, or `: N P D` with the detail; then the word that says what was left behind, or that it was not.
pub(crate) fn answer(
    rt: &impl Print,
    answer: Result<(), Refused>,
    has_detail: bool,
    left: &str,
    is_left: bool,
) -> io::Result<()> {
    let checked = Checked::from(answer);
    word(rt, ": ", u64::from(checked.number))?;
    word(rt, " ", checked.place as u64)?;
    if has_detail {
        word(rt, " ", u64::from(checked.detail))?;
    }
    print!(rt; " ")?;
    if !is_left {
        print!(rt; "NOT ")?;
    }
    println!(rt; "{left}")
}
