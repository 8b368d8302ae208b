// Writing a network: an unsound one and a wrong length are refused, and the buffer stays as it was. A network has no first four bytes, so
// rule 20 can't be broken in it.
use crate::{print, states};
use network::{Network, Refused};
use std::io;

// What writing answered, and the buffer afterwards.
#[derive(Drop)]
struct After {
    answer: Result<(), Refused>,
    bytes: [u8; 5120],
}

// The network is written over a buffer of 170s.
fn write_over(n: &Network) -> After {
    let mut bytes = [170u8; 5120];
    let answer = n.write(&mut bytes);
    After { answer, bytes }
}

// A sound network is written as the bytes that document 01 gives it.
pub(crate) fn accepted(rt: &impl Print) -> io::Result<()> {
    let after = write_over(&states::linked());
    print!(rt; "write, sound")?;
    print::answer(
        rt,
        after.answer,
        true,
        "as given",
        after.bytes == states::linked_by_hand(),
    )
}

// An unsound network is written; the line says which rule it breaks, and at which record.
fn refused(rt: &impl Print, rule: u64, fault: u64, n: Network) -> io::Result<()> {
    let after = write_over(&n);
    print::word(rt, "write, rule ", rule)?;
    print::word(rt, " at ", fault)?;
    print::answer(
        rt,
        after.answer,
        true,
        "untouched",
        after.bytes == [170u8; 5120],
    )
}

// An unsound network is written over a buffer whose bytes are those of `before`: a wrong length is found before the unsound record.
fn length(rt: &impl Print, state: &mut [u8], before: &[u8]) -> io::Result<()> {
    let mut n = states::linked();
    n.neighbours[0] = 0;
    let wrote = n.write(&mut *state);
    print::word(rt, "write, length ", before.len() as u64)?;
    print::answer(rt, wrote, true, "untouched", &*state == before)
}

pub(crate) fn lengths(rt: &impl Print) -> io::Result<()> {
    length(rt, &mut [170u8; 1], &[170u8; 1])?;
    length(rt, &mut [170u8; 5119], &[170u8; 5119])?;
    length(rt, &mut [170u8; 5121], &[170u8; 5121])?;
    length(rt, &mut [170u8; 5120], &[170u8; 5120])
}

pub(crate) fn rule_21(rt: &impl Print) -> io::Result<()> {
    let mut n = states::alone();
    n.subs[0] = 1;
    refused(rt, 21, 0, n)?;
    let mut n = Network::blank();
    n.known[1023] = 1;
    refused(rt, 21, 31, n)
}

pub(crate) fn rule_22(rt: &impl Print) -> io::Result<()> {
    let mut n = states::linked();
    n.neighbours[0] = 0x8000_0003;
    n.known[1] = 1;
    refused(rt, 22, 0, n)?;
    let mut n = states::linked();
    n.neighbours[31] = 0x8000_0001;
    n.known[992] = 0x8000_0000;
    n.known[1023] = 0x8000_0000;
    refused(rt, 22, 31, n)
}

pub(crate) fn rule_23(rt: &impl Print) -> io::Result<()> {
    let mut n = states::linked();
    n.neighbours[0] = 0x8000_0006;
    n.neighbours[2] = 1;
    refused(rt, 23, 0, n)?;
    let mut n = states::linked();
    n.neighbours[31] = 5;
    refused(rt, 23, 31, n)
}

pub(crate) fn rule_24(rt: &impl Print) -> io::Result<()> {
    let mut n = states::linked();
    n.neighbours[1] = 0;
    n.known[33] = 0;
    refused(rt, 24, 0, n)?;
    let mut n = states::linked();
    n.neighbours[31] = 3;
    n.known[992] = 2;
    refused(rt, 24, 31, n)
}

pub(crate) fn rule_25(rt: &impl Print) -> io::Result<()> {
    let mut n = states::linked();
    n.known[31] = 0;
    refused(rt, 25, 0, n)?;
    let mut n = states::linked();
    n.known[1023] = 1;
    refused(rt, 25, 31, n)
}

pub(crate) fn rule_26(rt: &impl Print) -> io::Result<()> {
    let mut n = states::linked();
    n.seen[0] = 96;
    refused(rt, 26, 0, n)?;
    let mut n = states::linked();
    n.seen[31] = 0x8000_0000_0000_0001;
    refused(rt, 26, 31, n)
}
