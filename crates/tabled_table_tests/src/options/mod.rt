//! Tests of options: what their compositions do, and what they leave where a part is refused.

mod changes;
mod hints;
mod refusals;
mod testing;
