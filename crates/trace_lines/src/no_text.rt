// What has no spelling. It relies on nothing.

/// What is to be printed has no text: a number, a status or bytes that no such line has, or an answer of another call's form.
#[derive(Clone, Copy, Debug, PartialEq, Eq)]
pub struct NoText;
