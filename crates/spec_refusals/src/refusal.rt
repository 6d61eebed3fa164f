// The refusals of document 01's table.
#[derive(Clone, Copy, PartialEq, Eq)]
pub enum Refusal {
    Unknown,
    NoCaller,
    InterruptsOff,
    BadId,
    BadNumber,
    BlocksInRegion,
    NoneFree,
    NotOwner,
    InChannel,
    HasWaiters,
    PopsNothing,
    NotPeriodic,
}
