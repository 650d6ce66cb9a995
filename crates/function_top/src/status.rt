//! How the command ends.

/// The status of a run, numbered from 0 in this order.
#[derive(Clone, Copy, PartialEq, Eq, Debug)]
pub enum Status {
    /// The report has no `unknown` line.
    AllInputs,
    /// The report has an `unknown` line.
    SomeInputs,
    /// The words of the command line are refused; the usage line is written.
    Words,
    /// The text is no program; the line of its fault is written.
    Program,
    /// The text of the formula is none over the program's names, or its normal form is too long; the line of its fault is written.
    Formula,
    /// A read failed; nothing is written.
    ReadFault,
    /// A write failed; a front of the text that was to be written is written.
    WriteFault,
    /// Memory ran out before the writing; nothing is written.
    NoMemory,
}
