// Reading a message table: refused by 2, then by 4 with the lowest bad row, a table of zeros then standing where another stood.
use crate::{print, states};
use network::Table;
use std::io;

// Rows 0 and 63 with the highest topic and origin, all others zero.
fn sound() -> [u8; 256] {
    let b = states::set([0u8; 256], 0, 31);
    let b = states::set(b, 1, 31);
    let b = states::set(b, 4 * 63, 31);
    states::set(b, 4 * 63 + 1, 30)
}

// What stands where a case reads into: no zero, and no case reads it.
fn before() -> Table {
    Table {
        topics: [7u8; 64],
        origins: [9u8; 64],
    }
}

// The table of zeros.
fn is_zero(t: &Table) -> bool {
    t.topics == [0u8; 64] && t.origins == [0u8; 64]
}

pub(crate) fn accepted(rt: &impl Print) -> io::Result<()> {
    let mut t = before();
    let read = t.read(&sound());
    print!(rt; "table, sound")?;
    print::answer(
        rt,
        read,
        false,
        "as given",
        t.topics[0] == 31
            && t.origins[0] == 31
            && t.topics[63] == 31
            && t.origins[63] == 30
            && t.topics[1] == 0
            && t.origins[62] == 0,
    )
}

// A wrong length is found before the bad rows.
fn length(rt: &impl Print, table: &[u8]) -> io::Result<()> {
    let mut t = before();
    let read = t.read(table);
    print::word(rt, "table, length ", table.len() as u64)?;
    print::answer(rt, read, false, "zeros", is_zero(&t))
}

pub(crate) fn lengths(rt: &impl Print) -> io::Result<()> {
    length(rt, &[0u8; 1])?;
    length(rt, &[0u8; 255])?;
    length(rt, &[255u8; 255])?;
    length(rt, &[255u8; 257])
}

// The table with byte `at` of row r set to x.
fn damaged(rt: &impl Print, table: [u8; 256], r: u8, at: u8, x: u8) -> io::Result<()> {
    let b = states::set(table, 4 * usize::from(r) + usize::from(at), x);
    let mut t = before();
    let read = t.read(&b);
    print::word(rt, "table, row ", u64::from(r))?;
    print::byte(rt, at, x)?;
    print::answer(rt, read, false, "zeros", is_zero(&t))
}

pub(crate) fn rows(rt: &impl Print) -> io::Result<()> {
    let b = sound();
    damaged(rt, b, 0, 0, 32)?;
    damaged(rt, b, 0, 1, 32)?;
    damaged(rt, b, 0, 2, 1)?;
    damaged(rt, b, 0, 3, 128)?;
    damaged(rt, b, 63, 0, 32)?;
    damaged(rt, b, 63, 1, 32)?;
    damaged(rt, b, 63, 2, 1)?;
    damaged(rt, b, 63, 3, 128)?;
    damaged(rt, states::set(b, 4 * 63, 255), 1, 1, 255)
}
