// The kind of an event, without its fields: what an answer says of the event that it answers (specs/Kind.antt).
#[derive(Clone, Copy, Debug, PartialEq, Eq)]
pub enum Kind {
    Skip,
    Produce,
    Forward,
    Subscribe,
    Unsubscribe,
    Leave,
    Join,
}
