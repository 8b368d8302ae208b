// What the run program prints (document 01, "The run program"): the line `FLOOD ` with the answer of a run, then, where the
// run reached its events, a line `PEER ` for each present peer with three counts.
//
// What it promises: `report` writes exactly the bytes of `report_of` (specs/Report.antt) to the front of a lent buffer, leaves the bytes
// behind them as they were, and answers how many it wrote. Nothing is asked of its caller: a buffer below 1,024 bytes is left as it was and
// the answer is 0, and what is printed is never longer than 596 bytes (proofs/ReportLaws.antt).
//
// Read on: specs/Text.antt (decimals), specs/Report.antt (the lines); their laws in specs/laws/TextLaws.antt and proofs/ReportLaws.antt; 01's example in
// specs/laws/Examples.antt; src/text.rt (a page: the buffer and the place up to which it is written, specs/Write.antt).
#![tactic(auto)]

mod text;

ghost use Rattle.std.specs.Prelude.{◌≡◌, ◌+◌, ◌≤◌, ◌<◌, length};
ghost use Rattle.network.specs.Network.{peer};
ghost use Rattle.report.specs.Write.{Put};
ghost use Rattle.report.specs.Report.{first_line, peer_line, peer_lines, shown_for, Reported};

use network::Network;
use sets::Word;
use text::Page;

// "`FLOOD `, then number, place, accepted": the number is printed, whichever it is.
#[tactic(auto, using(crate::specs::laws::TextLaws::length_byte, crate::specs::laws::TextLaws::spaced_long))]
fn first_line(page: &mut Page, number: u8, place: usize, accepted: usize)
    requires { page.old.at + 52 ≤ length page.old.out.now }
    ensures line { Put page.old (first_line number place accepted) page.new }
    ensures bound { page.new.at ≤ page.old.at + 52 }
{
    page.put(b"FLOOD ");
    page.number(number as usize);
    page.spaced(place);
    page.spaced(accepted);
    page.newline();
}

// "`PEER `, its number, and how many topics it subscribes to, messages are pending, messages seen".
#[tactic(auto, using(crate::specs::laws::TextLaws::length_count, crate::specs::laws::TextLaws::spaced_count))]
fn peer_line(page: &mut Page, n: &Network, p: u32)
    requires fits { p < 32 }
    requires room { page.old.at + 17 ≤ length page.old.out.now }
    ensures line { Put page.old (peer_line n.now (peer p)) page.new }
    ensures bound { page.new.at ≤ page.old.at + 17 }
{
    let i = p as usize;
    page.put(b"PEER ");
    page.number(i);
    page.spaced(n.subs[i].size() as usize);
    page.spaced(n.pending[i].size() as usize);
    page.spaced(n.seen[i].size() as usize);
    page.newline();
}

// "for each present peer rising".
fn peer_lines(page: &mut Page, n: &Network)
    requires { page.old.at + 544 ≤ length page.old.out.now }
    ensures lines { Put page.old (peer_lines n.now) page.new }
    ensures bound { page.new.at ≤ page.old.at + 544 }
{
    for p in n.present.members() {
        peer_line(page, n, p);
    }
}

// "For 0 and any refused event": is a run's number, the one that is printed, followed by the peers?
#[tactic(auto, unfolding(crate::specs::Report::shown_for))]
pub fn shown(number: u8) -> bool
    ensures { result ≡ shown_for number }
{
    matches!(number, 0 | 6..=16)
}

// What is printed of a run's answer and the network after it, with the peers where `show` says so (for a run: `shown(number)`); answers its length.
// The number is printed: it is the one of the answer that C reads, too. The buffer is lent and the length answered, as of `Read`: no heap.
// (Three numbers and no `Answer`: that is engine's, a crate above.)
pub fn report(
    number: u8,
    place: usize,
    accepted: usize,
    n: &Network,
    show: bool,
    out: &mut [u8],
) -> usize
    ensures { Reported number place accepted n.now show out.old out.new result }
{
    if out.len() < 1024 {
        return 0; // a length
    }
    let mut page = Page { out, at: 0 };
    first_line(&mut page, number, place, accepted);
    if show {
        peer_lines(&mut page, n);
    }
    page.at
}
