//! A limit for the lines of COPY text (PostgreSQL documentation, page COPY, "Text Format").

mod fault;
mod reader;

pub use fault::LimitedTextFault;
pub use reader::LimitedTextReader;
