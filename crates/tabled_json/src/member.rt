//! Members of objects.

/// A member of an object: its key, and the text of its value.
///
/// Of this project.
#[derive(Clone, Copy, Debug, PartialEq, Eq)]
pub struct Member<'a> {
    pub key: &'a str,
    pub text: &'a str,
}
