/// What is wrong with a line.
#[derive(Clone, Copy, Debug, PartialEq, Eq)]
pub enum Fault {
    /// No whole transcript for the script has the lines up to here.
    Form,
    /// It is an event that isn't legal where it stands.
    Legal,
    /// It is the last line, and some lane isn't complete.
    Complete,
}

/// What the judge says of a text: it is right, or the first line that is wrong, counted from 1.
#[derive(Clone, Copy, Debug, PartialEq, Eq)]
pub enum Verdict {
    Yes,
    No { line: u32, why: Fault },
}
