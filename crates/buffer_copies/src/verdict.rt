// The verdict on a frame that is offered.
#[derive(Clone, Copy, Debug, PartialEq, Eq)]
pub enum Verdict {
    Late,
    Far,
    Repeated,
    Better,
    NoRoom,
    Inserted,
}
