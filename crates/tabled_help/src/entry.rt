//! What the texts that are told are of.

/// What is said of a word of scripts.
#[derive(Clone, Copy, Debug, PartialEq, Eq)]
pub struct Entry {
    pub word: &'static str,
    /// Its lines.
    pub text: &'static str,
}

/// What is written here in place of a word of other tools.
#[derive(Clone, Copy, Debug, PartialEq, Eq)]
pub struct Way {
    pub word: &'static str,
    pub way: &'static str,
}

/// What is said of a fault of a script.
#[derive(Clone, Copy, Debug, PartialEq, Eq)]
pub struct FaultText {
    pub title: &'static str,
    /// What lines have it.
    pub when: &'static str,
    pub cure: &'static str,
    /// A script with the fault, and what it prints.
    pub example: &'static str,
}
