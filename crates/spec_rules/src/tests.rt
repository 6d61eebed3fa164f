// What a test of the state rules looks at.

// Of which tables some record, or its place, may be another one than in a state that keeps its rules. The bits count with the events.
#[derive(Clone, Copy)]
pub struct Asked {
    pub threads: bool,
    pub semaphores: bool,
    pub events: bool,
    pub messages: bool,
    pub flags: bool,
}
