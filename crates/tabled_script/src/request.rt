//! What is asked of the program.

use crate::form::Form;
use std::alloc::Global;
use tabled_csv::Dialect;

/// How the rows of a file are read.
///
/// Of this project.
#[derive(Drop, Clone, Copy)]
pub enum Format {
    /// CSV, of a dialect.
    Csv(Dialect),
    /// JSON: records, or rows as they are.
    Json,
}

/// A file of rows.
///
/// Of this project.
#[derive(Drop)]
pub struct Source {
    /// What it is called where its fault is told.
    pub name: String,
    pub format: Format,
    pub bytes: Vec<u8>,
}

/// What is asked for, beside a script.
///
/// Of this project.
#[derive(Drop)]
pub struct Request {
    /// What the table that the script ends with is written as.
    pub form: Form,
    /// Files whose rows are records before those of the script, one behind another.
    pub sources: Vec<Source>,
    /// Steps behind those of the script, each a list of its words.
    pub steps: Vec<Vec<String>>,
    /// Whether steps of the script that name nothing or leave no text are told, too, and each step that changes nothing, and
    /// rows of another length than the first.
    pub checks_steps: bool,
}

impl Request {
    ghost use Rattle.std.specs.Prelude.{◌≡◌, [], false};

    /// The script and its table in a form, and no more.
    pub fn new(alloc: Global, form: Form) -> Self
        ensures form { result.form ≡ form }
        ensures sources { result.sources.items ≡ [] }
        ensures steps { result.steps.items ≡ [] }
        ensures checks_steps { result.checks_steps ≡ false }
    {
        Request {
            form,
            sources: Vec::new(alloc),
            steps: Vec::new(alloc),
            checks_steps: false,
        }
    }
}
