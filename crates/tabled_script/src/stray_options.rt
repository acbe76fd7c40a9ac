//! Options that stand among the words of steps.

use crate::notes::Notes;
use crate::setting::OPTIONS;
use std::alloc::Global;
use std::io::Write;

/// Tells of each step the first word behind its verb that is the name of an option.
pub(crate) fn tell_stray_options<E: Write>(
    alloc: Global,
    steps: &[Vec<String>],
    notes: &mut Notes<'_, E>,
) {
    let mut number = 0usize;
    for step in steps {
        number = number.saturating_add(1);
        if let Some(option) = option_in(step) {
            notes.tell(format!(in alloc;
                "tabled_script: step {number}: {option} is a word of it: options stand before the steps\n"
            ));
        }
    }
}

/// The first word behind a step's verb that is the name of an option.
fn option_in(step: &[String]) -> Option<&str> {
    for word in step.iter().skip(1) {
        if OPTIONS.contains(&word.as_str()) {
            return Some(word.as_str());
        }
    }
    None
}
