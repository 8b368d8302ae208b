// The network: its working state, what a sound one is, and how it is read from and written to 5,120 bytes (document 01,
// "Numbers and state", "Records"); and the message table. Each promise is an equation over all bytes and all networks.
// Read specs/Network.antt (the state and what can be observed of it), specs/Rules.antt (soundness, rule by rule),
// specs/State.antt (the records) and specs/Rows.antt (the message table); specs/Refusal.antt and specs/Refused.antt have the numbers of
// the refusals. What follows from them: specs/laws/SoundIff.antt (the rules are soundness), specs/laws/SoundLaws.antt (what every sound
// network has), specs/laws/OpenedSound.antt (what is read is sound), specs/laws/Trips.antt (read and written back, and the reverse),
// specs/laws/SameNetwork.antt (a network is its observations).
#![tactic(auto)]

mod load;
pub mod refusal;
mod rows;
mod rules;
mod store;
mod verdict;

ghost use Rattle.std.specs.Prelude.{◌≡◌, ◌+◌, ◌*◌, ◌<◌, length, ltb};
ghost use Rattle.network.specs.Network.{peer, message, topic_of};
ghost use Rattle.network.specs.Refused.{checked_as, at_zero, OrUnfit};
ghost use Rattle.network.specs.Storing.{put_messages};
ghost use Rattle.network.specs.State.{blank_net, read_as, open_of, Opens, bytes_of, write_of, written_of};
ghost use Rattle.network.specs.Rows.{blank_table, listed_as, list_of};

use endian::Little;
pub use refusal::Refusal;

// "A peer number, a topic number and a message number are separate sorts": none stands where another is meant. Each holds any byte, since
// `events::record` and `write_at` promise the bytes of every event, whatever its numbers; so a range is a clause of what needs it.
// As an index one is `p.0 as usize`, the language's own cast.
#[derive(Clone, Copy, Debug, PartialEq, Eq)]
pub struct Peer(pub u8);

#[derive(Clone, Copy, Debug, PartialEq, Eq)]
pub struct Topic(pub u8);

#[derive(Clone, Copy, Debug, PartialEq, Eq)]
pub struct Message(pub u8);

// "Peers 0 to 31 [..] messages 0 to 63": a byte that is none of them is refused by 7. (The sorts are separate: one
// conversion for both would need a third thing of which they are instances.)
impl TryFrom<u8> for Peer {
    type Error = Refusal;

    ghost try_from_gives = { λ i answer. OrUnfit (ltb i 32) (peer i) answer };

    fn try_from(i: u8) -> Result<Peer, Refusal> {
        if i < 32 {
            Ok(Peer(i))
        } else {
            Err(Refusal::Unfit)
        }
    }
}

impl TryFrom<u8> for Message {
    type Error = Refusal;

    ghost try_from_gives = { λ i answer. OrUnfit (ltb i 64) (message i) answer };

    fn try_from(i: u8) -> Result<Message, Refusal> {
        if i < 64 {
            Ok(Message(i))
        } else {
            Err(Refusal::Unfit)
        }
    }
}

// (Neither this nor `Table` has PartialEq: only network_main compares, with the bytes or columns that document 01 gives.)
// The working state: for each peer its sets as words; `known` has the word of topic t of peer p at p * 32 + t. Columns and no records: the
// definitions speak of them (specs/Network.antt), and a row of known subscribers is compared whole, by vectors.
#[derive(Clone, Copy)]
pub struct Network {
    pub present: u32,
    pub pubs: [u32; 32],
    pub subs: [u32; 32],
    pub neighbours: [u32; 32],
    pub pending: [u64; 32],
    pub seen: [u64; 32],
    pub known: [u32; 1024],
}

// The message table, read once: topic and origin of each message, in columns, of which the definitions speak. It holds any columns, as `topic_of` answers for
// any; that its rows were accepted, or a topic is in range, is a clause (`Rows`, `TopicsFit`, or of `topic_of`) of what needs it.
#[derive(Clone, Copy)]
pub struct Table {
    pub topics: [u8; 64],
    pub origins: [u8; 64],
}

// Who is refused, and where: the refusal, the record or row at fault (0 where none is), and the detail (02's E1: the lowest peer or topic at
// fault for 23 to 25, else 0).
#[derive(Clone, Copy, Debug, PartialEq, Eq)]
pub struct Refused {
    pub refusal: Refusal,
    pub place: usize,
    pub detail: u8,
}

// A refusal of no record, row or event in particular: place 0, without a detail.
impl From<Refusal> for Refused {
    ghost from_gives = { λ refusal refused. refused ≡ at_zero refusal };

    fn from(refusal: Refusal) -> Refused {
        Refused {
            refusal,
            place: 0,
            detail: 0,
        }
    }
}

// What an entry point answers that only reads or writes: zeros, or the number of a refusal, its detail (the lowest peer or topic at fault where
// the number is 23 to 25, else 0) and its place, here the record at fault. The detail lies where C has padding, and the number is one because C reads it.
#[repr(C)]
#[derive(Clone, Copy)]
pub struct Checked {
    pub number: u8,
    pub detail: u8,
    pub place: usize,
}

impl From<Result<(), Refused>> for Checked {
    ghost from_gives = { λ answer checked. checked ≡ checked_as answer };

    fn from(answer: Result<(), Refused>) -> Checked {
        match answer {
            Ok(()) => Checked {
                number: 0,
                detail: 0,
                place: 0,
            },
            Err(refused) => Checked {
                number: refused.refusal as u8,
                detail: refused.detail,
                place: refused.place,
            },
        }
    }
}

impl Network {
    // The blank network: nobody is present.
    #[tactic(auto, unfolding(crate::specs::State::blank_net))]
    pub fn blank() -> Network
        ensures { result ≡ blank_net }
    {
        Network {
            present: 0,
            pubs: [0u32; 32],
            subs: [0u32; 32],
            neighbours: [0u32; 32],
            pending: [0u64; 32],
            seen: [0u64; 32],
            known: [0u32; 1024],
        }
    }

    // Takes what the bytes say. Refused by 1, and the network then stays as it was; else by 20 to 26 with the lowest unsound record and the
    // detail, the network being what the words say.
    pub fn open(&mut self, state: &[u8]) -> Result<(), Refused>
        ensures { Opens state.now self.old result self.new }
    {
        let Some(state) = state.as_array::<5120>() else {
            return Err(Refused::from(Refusal::StateLength));
        };
        let heads = load::words(state, 0);
        self.present = rules::ones(&heads);
        self.pubs = load::words(state, 1);
        self.subs = load::words(state, 2);
        self.neighbours = load::words(state, 3);
        self.pending = load::longs(state, 4);
        self.seen = load::longs(state, 6);
        load::fill_known(state, &mut self.known);
        verdict::verdict(&*self, &heads)
    }

    // Reads the network that the bytes say. Refused as `open` is; a refused read leaves the blank network.
    #[tactic(auto, using(crate::specs::laws::Opening::read_accepted, crate::specs::laws::Opening::read_refused))]
    pub fn read(&mut self, state: &[u8]) -> Result<(), Refused>
        ensures { read_as result self.new ≡ open_of state.now }
    {
        let opened = self.open(state);
        if opened.is_err() {
            *self = Network::blank();
        }
        opened
    }

    // Writes the network's bytes. The buffer is a slice, here and in store.rt: its length is tested by those who lend it, in its place among the refusals. (This and
    // `save_messages` are public and named in docs/PROMISES.md: an array would ask more of their callers.)
    #[tactic(auto, using(crate::proofs::Steps::filling, crate::specs::laws::Storing::filled_record), unfolding(crate::specs::State::bytes_of))]
    pub fn save(&self, state: &mut [u8])
        requires { length state.old ≡ 5120 }
        ensures { state.new ≡ bytes_of self.now }
    {
        for i in 0..32 {
            let p = Peer(i);
            store::words(&mut *state, self, p);
            store::row(&mut *state, store::row_of(&self.known, p), p);
        }
    }

    // Writes pending and seen of every record into a state, a slice as for `save`; its other bytes stay. Over the bytes of a network these are the bytes of that
    // network with these words (`put_messages_lem`, specs/laws/Messages.antt).
    #[tactic(auto, using(crate::specs::laws::Messages::length_put_messages, crate::specs::laws::Messages::put_messages_more), unfolding(crate::specs::Storing::put_messages))]
    pub fn save_messages(&self, state: &mut [u8])
        requires { length state.old ≡ 5120 }
        ensures { state.new ≡ put_messages 32 state.old self.now.pending self.now.seen }
    {
        for p in 0..32 {
            self.pending[p].put(&mut *state, 160 * p + 16);
            self.seen[p].put(&mut *state, 160 * p + 24);
        }
    }

    // Writes the network's bytes, if it is sound. Refused by 1, then by 21 to 26 with the lowest unsound record and the detail; the buffer
    // then stays as it was.
    pub fn write(&self, state: &mut [u8]) -> Result<(), Refused>
        ensures answer { checked_as result ≡ write_of self.now state.old }
        ensures bytes { state.new ≡ written_of self.now state.old }
    {
        if state.len() != 5120 {
            return Err(Refused::from(Refusal::StateLength));
        }
        let heads = store::heads(self.present);
        verdict::verdict(self, &heads)?;
        self.save(state);
        Ok(())
    }
}

impl Table {
    // The table of zeros.
    #[tactic(auto, unfolding(crate::specs::Rows::blank_table))]
    pub fn blank() -> Table
        ensures { result ≡ blank_table }
    {
        Table {
            topics: [0u8; 64],
            origins: [0u8; 64],
        }
    }

    // Reads the table that the rows say. Refused by 2, then by 4 with the lowest bad row; a refused read leaves a table of zeros.
    #[tactic(auto, using(crate::proofs::Steps::listing))]
    pub fn read(&mut self, rows: &[u8]) -> Result<(), Refused>
        ensures table { listed_as result self.new ≡ list_of rows.now }
        ensures detail { (checked_as result).detail ≡ 0 }
    {
        *self = Table::blank();
        let Some(rows) = rows.as_array::<256>() else {
            return Err(Refused::from(Refusal::TableLength));
        };
        let words = rows::words(rows);
        if let Some(place) = rows::bad(&words) {
            return Err(Refused {
                refusal: Refusal::BadRow,
                place,
                detail: 0,
            });
        }
        *self = rows::columns(&words);
        Ok(())
    }

    // The topic of a message.
    pub fn topic_of(&self, m: Message) -> Topic
        requires { m.0 < 64 }
        ensures { result ≡ topic_of self.now m }
    {
        Topic(self.topics[m.0 as usize])
    }
}

// Where the known subscribers of topic t at peer p stand.
pub fn spot(p: Peer, t: Topic) -> usize
    requires { (p.0 < 32) × (t.0 < 32) }
    ensures { result ≡ p.0 * 32 + t.0 }
{
    p.0 as usize * 32 + t.0 as usize
}
