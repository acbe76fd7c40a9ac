//! Sources of rows, and what limits and skips their rows and columns.

mod buf_records;
mod either_string;
mod empty_records;
pub mod into_records;
mod iter_rows;
mod limit_columns;
mod limit_rows;
mod skip_rows;
mod vec_rows;

pub use buf_records::{BufIterator, BufRecords, BufRecordsIter};
pub use either_string::EitherString;
pub use empty_records::EmptyRecords;
pub use into_records::IntoRecords;
pub use iter_rows::IterRows;
pub use limit_columns::{LimitColumns, LimitColumnsColumnsIter, LimitColumnsIter};
pub use limit_rows::{LimitRows, LimitRowsIter};
pub use skip_rows::{SkipRows, SkipRowsIter};
pub use vec_rows::VecRows;
