// Why something is refused: document 01's "Numbers returned", and 02's E1 for an unsound state.
ghost use Rattle.std.specs.Prelude.{◌≡◌};
ghost use Rattle.network.specs.Refusal.{number_of};

/// One refusal for each number that document 01 or 02 gives.
#[derive(Clone, Copy, Debug, PartialEq, Eq, Hash)]
pub enum Refusal {
    /// The state isn't 5,120 bytes.
    StateLength = 1,
    /// The message table isn't 256 bytes.
    TableLength = 2,
    /// The event bytes aren't a multiple of 16.
    EventsLength = 3,
    /// A message row has a topic or an origin above 31, or bytes 2-3 not zero.
    BadRow = 4,
    /// The code is none of the seven.
    UnknownCode = 6,
    /// A peer above 31, a message above 63, or an unused byte that is not zero.
    Unfit = 7,
    /// The peer is absent.
    PeerAbsent = 8,
    /// The joining peer is already present.
    PeerPresent = 9,
    /// The producing peer isn't the message's origin.
    NotOrigin = 10,
    /// The topic is not in the peer's pubs.
    NotPublished = 11,
    /// The message is not new.
    NotNew = 12,
    /// The message is not pending at this peer.
    NotPending = 13,
    /// The leaver has something pending.
    StillPending = 14,
    /// The joining peer names itself as a neighbour.
    NamesItself = 15,
    /// A named neighbour is absent.
    NamesAbsent = 16,
    /// The program's input is above 65,536 bytes.
    InputLength = 17,
    /// The image buffer isn't 5,120 bytes.
    ImageLength = 18,
    /// A record's first four bytes are neither 0 nor 1.
    BadHead = 20,
    /// An absent record is not empty.
    AbsentNotEmpty = 21,
    /// A peer is its own neighbour.
    OwnNeighbour = 22,
    /// A neighbour is absent.
    NeighbourAbsent = 23,
    /// A neighbour doesn't list back.
    NotListedBack = 24,
    /// The known subscribers are not the neighbours subscribed.
    KnownWrong = 25,
    /// A message is pending and also seen.
    PendingSeen = 26,
}

impl From<Refusal> for u8 {
    ghost from_gives = { λ refusal number. number ≡ number_of refusal };

    fn from(refusal: Refusal) -> u8 {
        refusal as u8
    }
}
