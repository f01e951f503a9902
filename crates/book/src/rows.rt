// The rows of the tables that a book is opened over.
pub use working_out::rows::{HopRow, LinkRow, PortRow};
