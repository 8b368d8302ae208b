// Reading a state: sound ones come back byte for byte, and each damaged one is refused with the number, the place and the detail of
// document 02's E1 and leaves the blank state where another stood.
use crate::{print, states};
use network::Network;
use std::io;

// The network is the blank one: its bytes are 5,120 zeros.
fn is_blank(n: &Network) -> bool {
    states::bytes(n) == [0u8; 5120]
}

// The state with byte `at` of record p set to x is read; the line says `rule`, the record at fault and the byte set last.
fn damaged(
    rt: &impl Print,
    rule: u64,
    fault: u8,
    state: [u8; 5120],
    p: u8,
    at: u8,
    x: u8,
) -> io::Result<()> {
    let b = states::set(state, 160 * usize::from(p) + usize::from(at), x);
    let mut n = states::before();
    let read = n.read(&b);
    print::word(rt, "read, rule ", rule)?;
    print::word(rt, " at ", u64::from(fault))?;
    print::word(rt, ", record ", u64::from(p))?;
    print::byte(rt, at, x)?;
    print::answer(rt, read, true, "blank", is_blank(&n))
}

// The same, where the byte is one of the record at fault.
fn at_fault(rt: &impl Print, rule: u64, state: [u8; 5120], p: u8, at: u8, x: u8) -> io::Result<()> {
    damaged(rt, rule, p, state, p, at, x)
}

// The state is read and what was read is written over other bytes.
fn round(rt: &impl Print, state: [u8; 5120]) -> io::Result<()> {
    let mut n = states::before();
    let read = n.read(&state);
    print!(rt; "read and write, sound")?;
    print::answer(rt, read, true, "same", states::bytes(&n) == state)
}

pub(crate) fn accepted(rt: &impl Print) -> io::Result<()> {
    round(rt, [0u8; 5120])?;
    round(rt, states::bytes(&states::alone()))?;
    round(rt, states::linked_by_hand())
}

// A wrong length is found before the unsound records.
fn length(rt: &impl Print, state: &[u8]) -> io::Result<()> {
    let mut n = states::before();
    let read = n.read(state);
    print::word(rt, "read, length ", state.len() as u64)?;
    print::answer(rt, read, true, "blank", is_blank(&n))
}

pub(crate) fn lengths(rt: &impl Print) -> io::Result<()> {
    length(rt, &[0u8; 1])?;
    length(rt, &[0u8; 5119])?;
    length(rt, &[255u8; 5119])?;
    length(rt, &[255u8; 5121])?;
    length(rt, &[255u8; 5120])
}

// At the last record in a state where nobody lists 31: with byte 0 no longer 1 it would be an absent neighbour of a lower record.
pub(crate) fn rule_20(rt: &impl Print) -> io::Result<()> {
    let b = states::bytes(&states::linked());
    at_fault(rt, 20, b, 0, 0, 2)?;
    at_fault(rt, 20, b, 0, 0, 255)?;
    at_fault(rt, 20, b, 0, 1, 1)?;
    at_fault(rt, 20, b, 0, 2, 1)?;
    at_fault(rt, 20, b, 0, 3, 128)?;
    at_fault(rt, 20, b, 31, 1, 1)?;
    let b = states::bytes(&states::alone());
    at_fault(rt, 20, b, 31, 0, 2)?;
    at_fault(rt, 20, b, 31, 0, 255)?;
    at_fault(rt, 20, b, 31, 1, 1)?;
    at_fault(rt, 20, b, 31, 2, 1)?;
    at_fault(rt, 20, b, 31, 3, 128)
}

// One byte of each field of the absent record p is set.
fn fields(rt: &impl Print, p: u8) -> io::Result<()> {
    let b = [0u8; 5120];
    at_fault(rt, 21, b, p, 4, 1)?;
    at_fault(rt, 21, b, p, 8, 1)?;
    at_fault(rt, 21, b, p, 12, 2)?;
    at_fault(rt, 21, b, p, 16, 1)?;
    at_fault(rt, 21, b, p, 23, 128)?;
    at_fault(rt, 21, b, p, 24, 1)?;
    at_fault(rt, 21, b, p, 31, 128)?;
    at_fault(rt, 21, b, p, 32, 1)?;
    at_fault(rt, 21, b, p, 159, 128)
}

// A present record loses its presence; then the fields of an absent one.
pub(crate) fn rule_21(rt: &impl Print) -> io::Result<()> {
    at_fault(rt, 21, states::bytes(&states::linked()), 0, 0, 0)?;
    fields(rt, 0)?;
    at_fault(rt, 21, states::bytes(&states::alone()), 31, 0, 0)?;
    fields(rt, 31)
}

// The known subscribers are set as well, so that no other rule is broken.
pub(crate) fn rule_22(rt: &impl Print) -> io::Result<()> {
    let b = states::bytes(&states::linked());
    let b = states::set(b, 36, 1);
    at_fault(rt, 22, b, 0, 12, 3)?;
    let b = states::bytes(&states::linked());
    let b = states::set(b, 160 * 31 + 35, 128);
    let b = states::set(b, 160 * 31 + 159, 128);
    at_fault(rt, 22, b, 31, 15, 128)
}

// 0 lists the absent 2, which lists 0 (so 2 is unsound too, and higher); 31 lists the absent and empty 2; 31 is absent and 0 lists it.
pub(crate) fn rule_23(rt: &impl Print) -> io::Result<()> {
    let b = states::bytes(&states::linked());
    let b = states::set(b, 160 * 2 + 12, 1);
    at_fault(rt, 23, b, 0, 12, 6)?;
    let b = states::bytes(&states::linked());
    at_fault(rt, 23, b, 31, 12, 5)?;
    damaged(rt, 23, 0, b, 31, 0, 0)?;
    damaged(rt, 23, 0, b, 31, 0, 2)
}

// "if p lists q but q doesn't list p, p is unsound on that ground and q isn't": 0 lists 1 and 1 nobody; 31 lists 1 and 1 only 0; 31 lists
// 0 and 0 only 1. The known subscribers follow each time, so that no other rule is broken and q, which is lower twice, is sound.
pub(crate) fn rule_24(rt: &impl Print) -> io::Result<()> {
    let b = states::bytes(&states::linked());
    let b = states::set(b, 160 + 36, 0);
    damaged(rt, 24, 0, b, 1, 12, 0)?;
    let b = states::bytes(&states::linked());
    let b = states::set(b, 160 * 31 + 32, 2);
    at_fault(rt, 24, b, 31, 12, 3)?;
    let b = states::bytes(&states::linked());
    let b = states::set(b, 35, 0);
    let b = states::set(b, 159, 0);
    damaged(rt, 24, 31, b, 0, 15, 0)
}

// A subscriber missing, at the first and the last topic; a peer that is no neighbour; a neighbour that did not subscribe.
pub(crate) fn rule_25(rt: &impl Print) -> io::Result<()> {
    let b = states::bytes(&states::linked());
    at_fault(rt, 25, b, 0, 32, 0)?;
    at_fault(rt, 25, b, 0, 159, 0)?;
    at_fault(rt, 25, b, 0, 32, 6)?;
    at_fault(rt, 25, b, 0, 40, 2)?;
    at_fault(rt, 25, b, 31, 36, 0)?;
    at_fault(rt, 25, b, 31, 36, 3)?;
    at_fault(rt, 25, b, 31, 32, 1)?;
    at_fault(rt, 25, b, 31, 159, 128)
}

pub(crate) fn rule_26(rt: &impl Print) -> io::Result<()> {
    let b = states::bytes(&states::linked());
    at_fault(rt, 26, b, 0, 16, 96)?;
    at_fault(rt, 26, b, 0, 24, 96)?;
    at_fault(rt, 26, b, 31, 16, 1)?;
    at_fault(rt, 26, b, 31, 31, 128)
}

// Of two unsound records the lower one is the place, also where its rule is the later one; and of two rules that a record breaks the first
// is the number.
pub(crate) fn lowest(rt: &impl Print) -> io::Result<()> {
    let b = states::bytes(&states::linked());
    let b = states::set(b, 160 * 31 + 31, 128);
    damaged(rt, 26, 1, b, 1, 16, 3)?;
    damaged(rt, 26, 0, b, 0, 16, 96)?;
    let b = states::set(b, 160 * 31 + 1, 1);
    damaged(rt, 26, 0, b, 0, 16, 96)?;
    damaged(rt, 20, 31, b, 31, 32, 1)?;
    let b = states::set(b, 159, 0);
    damaged(rt, 25, 0, b, 0, 16, 96)
}

// Of several at fault the lowest is the detail: 0 lists the absent 2, 3 and 4; neither 1 nor 31 lists 0; topics 2 and 31 are wrong, then 0
// too.
pub(crate) fn lowest_detail(rt: &impl Print) -> io::Result<()> {
    let b = states::bytes(&states::linked());
    at_fault(rt, 23, b, 0, 12, 30)?;
    let b = states::set(b, 160 * 31 + 12, 0);
    damaged(rt, 24, 0, b, 1, 12, 0)?;
    let b = states::bytes(&states::linked());
    let b = states::set(b, 159, 0);
    at_fault(rt, 25, b, 0, 40, 2)?;
    let b = states::set(b, 40, 2);
    at_fault(rt, 25, b, 0, 32, 0)
}
