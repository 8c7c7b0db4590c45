// Where a record stands in an input, the sorts of records, and why reading stopped.
use maps::kinds::Fault;

/// Where a record begins: how many records of its sort stand right before it, and at which byte.
#[derive(Clone, Copy, PartialEq, Eq, Debug)]
pub struct Place {
    pub index: usize,
    pub byte: usize,
}

/// The sorts of records.
#[derive(Clone, Copy, PartialEq, Eq, Debug)]
pub enum Record {
    /// The first record of a document: its kind and its sizes.
    Header,
    /// A road of a map.
    Road,
    /// The end of a document, a record of no bytes.
    End,
}

/// A fault, and the record that has it.
#[derive(Clone, Copy, PartialEq, Eq, Debug)]
pub struct Refusal {
    pub fault: Fault,
    pub record: Record,
    pub at: Place,
}

/// Why reading stopped.
#[derive(Clone, Copy, PartialEq, Eq, Debug)]
pub enum Stop {
    /// The input is refused.
    Input(Refusal),
    /// Memory ran out, which is no fault of the input.
    Memory,
}
