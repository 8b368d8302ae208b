// Events: the seven kinds, one 16-byte record read and written, and the reader that carries the event bytes together
// with its place (document 01, "Records", "Events").
//
// What stands at a place of the event bytes is `reading_at` (specs/Event.antt), in 01's numbers and values: whether a record is
// there, the number (0, or 6 before 7) and the event. Reading answers an event or its refusal, or None where no record is any more;
// `reading_of` gives the number and values of each of these cases, and the promises of reading are stated through it. It fixes the
// case, as two refusals have two numbers (specs/laws/ReadingLaws.antt), so nothing is lost.
// The record of an event is `record_of` (specs/Writing.antt). specs/laws/RoundTrip.antt: an event that is read is in range, what was
// written is read, and 16 bytes that are read are what writing gives. specs/laws/Settled.antt: any two outcomes that satisfy a
// promise here are equal.
#![tactic(auto)]

ghost use Rattle.std.specs.Prelude.{◌≡◌, ◌+◌, ◌*◌, ◌/◌, ◌≤◌, ◌<◌, length, ltb, Some};
ghost use Rattle.events.specs.Event.{reading_of, decode_of, fields_at, reading_at};
ghost use Rattle.events.specs.Writing.{fields_mk, fields_of, put_head, put_fields, record_of, written_at};

mod judge; // judge.rt: what refusal 7 tests, kind by kind
pub mod kind; // kind.rt: the kind of an event, for the answers

use endian::Little;
use kind::Kind;
use network::{Message, Peer, Refusal};

// What a joining peer brings: its topics and its neighbours.
#[derive(Clone, Copy, Debug, PartialEq, Eq)]
pub struct Joining {
    pub subs: u32,
    pub pubs: u32,
    pub neighbours: u32,
}

// Each kind carries only its own fields. A set of topics is a word.
#[derive(Clone, Copy, Debug, PartialEq, Eq)]
pub enum Event {
    Skip,
    Produce(Peer, Message),
    Forward(Peer, Message),
    Subscribe(Peer, u32),
    Unsubscribe(Peer, u32),
    Leave(Peer),
    Join(Peer, Joining),
}

impl Event {
    ghost use Rattle.events.specs.Kind.{kind_of};

    #[tactic(auto, unfolding(crate::specs::Kind::kind_of))]
    pub fn kind(self) -> Kind
        ensures { result ≡ kind_of self }
    {
        match self {
            Event::Skip => Kind::Skip,
            Event::Produce(..) => Kind::Produce,
            Event::Forward(..) => Kind::Forward,
            Event::Subscribe(..) => Kind::Subscribe,
            Event::Unsubscribe(..) => Kind::Unsubscribe,
            Event::Leave(_) => Kind::Leave,
            Event::Join(..) => Kind::Join,
        }
    }
}

// The fields of a record, as they stand in its bytes; `subs` are the topics of subscribe and unsubscribe.
#[derive(Clone, Copy, Debug, PartialEq, Eq)]
pub struct Fields {
    pub code: u8,
    pub peer: u8,
    pub message: u8,
    pub zero: u8,
    pub subs: u32,
    pub pubs: u32,
    pub neighbours: u32,
}

// The event that the fields stand for, or a refusal: "Codes 7 to 255 are refused."
impl TryFrom<Fields> for Event {
    type Error = Refusal;

    ghost try_from_gives = { λ f r. reading_of (Some r) ≡ decode_of f };

    #[tactic(auto, unfolding(crate::specs::Event::reading_of, crate::specs::Event::decode_of, crate::specs::Event::or_seven))]
    fn try_from(f: Fields) -> Result<Event, Refusal> {
        let p = Peer(f.peer);
        let m = Message(f.message);
        let sets = Joining {
            subs: f.subs,
            pubs: f.pubs,
            neighbours: f.neighbours,
        };
        let event = match f.code {
            0 => judge::skip_ok(f).then_some(Event::Skip),
            1 => judge::pair_ok(f).then_some(Event::Produce(p, m)),
            2 => judge::pair_ok(f).then_some(Event::Forward(p, m)),
            3 => judge::topics_ok(f).then_some(Event::Subscribe(p, f.subs)),
            4 => judge::topics_ok(f).then_some(Event::Unsubscribe(p, f.subs)),
            5 => judge::leave_ok(f).then_some(Event::Leave(p)),
            6 => judge::join_ok(f).then_some(Event::Join(p, sets)),
            7..=255 => return Err(Refusal::UnknownCode),
        };
        event.ok_or(Refusal::Unfit)
    }
}

#[tactic(auto, unfolding(crate::specs::Event::fields_at))]
fn fields_at(bytes: &[u8], at: usize) -> Fields
    requires { at + 16 ≤ length bytes.now }
    ensures { result ≡ fields_at bytes.now at }
{
    Fields {
        code: bytes[at],
        peer: bytes[at + 1],
        message: bytes[at + 2],
        zero: bytes[at + 3],
        subs: u32::read(bytes, at + 4),
        pubs: u32::read(bytes, at + 8),
        neighbours: u32::read(bytes, at + 12),
    }
}

// The work: what stands at a place, which counts records, of the event bytes. None: no record any more. The refusals are two: a code
// that is none of the seven (6); a peer or message out of range, or an unused byte that is not zero (7).
#[tactic(auto, unfolding(crate::specs::Event::reading_of, crate::specs::Event::reading_at))]
pub fn read_at(bytes: &[u8], place: usize) -> Option<Result<Event, Refusal>>
    ensures { reading_of result ≡ reading_at bytes.now place }
{
    if bytes.len() / 16 <= place {
        return None;
    }
    Some(Event::try_from(fields_at(bytes, place * 16)))
}

// A record's fields, in the order of document 01's table; byte 3 is zero.
fn fields_mk(code: u8, peer: u8, message: u8, subs: u32, pubs: u32, neighbours: u32) -> Fields
    ensures { result ≡ fields_mk code peer message subs pubs neighbours }
{
    Fields {
        code,
        peer,
        message,
        zero: 0,
        subs,
        pubs,
        neighbours,
    }
}

// The fields of an event: what its kind doesn't use is zero.
impl From<Event> for Fields {
    ghost from_gives = { λ e f. f ≡ fields_of e };

    #[tactic(auto, unfolding(crate::specs::Writing::fields_of))]
    fn from(e: Event) -> Fields {
        match e {
            Event::Skip => fields_mk(0, 0, 0, 0, 0, 0),
            Event::Produce(p, m) => fields_mk(1, p.0, m.0, 0, 0, 0),
            Event::Forward(p, m) => fields_mk(2, p.0, m.0, 0, 0, 0),
            Event::Subscribe(p, topics) => fields_mk(3, p.0, 0, topics, 0, 0),
            Event::Unsubscribe(p, topics) => fields_mk(4, p.0, 0, topics, 0, 0),
            Event::Leave(p) => fields_mk(5, p.0, 0, 0, 0, 0),
            Event::Join(p, j) => fields_mk(6, p.0, 0, j.subs, j.pubs, j.neighbours),
        }
    }
}

// (A buffer and a place in it, here and in `put_fields`, as a record is written where the list has it: nothing is made and copied.)
#[tactic(auto, unfolding(crate::specs::Writing::put_head))]
fn put_head(bytes: &mut [u8], at: usize, f: Fields)
    requires { at + 4 ≤ length bytes.old }
    ensures { bytes.new ≡ put_head bytes.old at f }
{
    bytes[at] = f.code;
    bytes[at + 1] = f.peer;
    bytes[at + 2] = f.message;
    bytes[at + 3] = f.zero;
}

#[tactic(auto, unfolding(crate::specs::Writing::put_fields))]
fn put_fields(bytes: &mut [u8], at: usize, f: Fields)
    requires { at + 16 ≤ length bytes.old }
    ensures { bytes.new ≡ put_fields bytes.old at f }
{
    put_head(bytes, at, f);
    f.subs.put(bytes, at + 4);
    f.pubs.put(bytes, at + 8);
    f.neighbours.put(bytes, at + 12);
}

// The record of an event. A crate that makes records writes them by this and `write_at` (02, E9); the engine only reads.
#[tactic(auto, unfolding(crate::specs::Writing::record_of))]
pub fn record(e: Event) -> [u8; 16]
    ensures { result ≡ record_of e }
{
    let mut bytes = [0u8; 16];
    put_fields(&mut bytes, 0, Fields::from(e));
    bytes
}

// The record written at a place, which counts records: true; or, where it does not fit, nothing written and false.
#[tactic(auto, unfolding(crate::specs::Writing::written_at))]
pub fn write_at(bytes: &mut [u8], place: usize, e: Event) -> bool
    ensures { (result ≡ ltb place (length bytes.old / 16)) × (bytes.new ≡ written_at bytes.old place e) }
{
    if bytes.len() / 16 <= place {
        return false;
    }
    put_fields(bytes, place * 16, Fields::from(e));
    true
}

// "A reader that carries the event bytes together with its place."
#[derive(Clone, Copy, Debug)]
pub struct Reader<'a> {
    pub bytes: &'a [u8],
    pub place: usize,
}

impl<'a> Reader<'a> {
    pub fn new(bytes: &'a [u8], place: usize) -> Reader<'a>
        ensures { (result.bytes ≡ bytes.entry) × (result.place ≡ place) }
    {
        Reader { bytes, place }
    }
}

// What stands at the reader's place; then the place is the next one, where a record was there.
impl<'a> Iterator for Reader<'a> {
    ghost use Rattle.std.specs.Iterator.{at_most};
    ghost use Rattle.events.specs.Reader.{NextRead, records_left};

    type Item = Result<Event, Refusal>;

    ghost next_gives = { NextRead };

    ghost remaining = { λ r. at_most (records_left r) };

    fn next(&mut self) -> Option<Result<Event, Refusal>> {
        let read = read_at(self.bytes, self.place)?;
        self.place += 1;
        Some(read)
    }
}

// Plain parameters: a reader is made and asked once. (It and `read_at` promise the same; both are public, and docs/ names both.)
pub fn event_at(bytes: &[u8], place: usize) -> Option<Result<Event, Refusal>>
    ensures { reading_of result ≡ reading_at bytes.now place }
{
    Reader::new(bytes, place).next()
}
