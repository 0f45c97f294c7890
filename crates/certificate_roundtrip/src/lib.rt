//! The text of a document with certificates that a search found is that document with them: the section has its
//! tokens (`sections`), the document is read from them (`documents`), and `check` takes its length (`texts`).
//!
//! The functions do nothing: they state the laws.
#![tactic(auto)]

mod documents;
mod sections;
mod texts;

pub use documents::found_laws;
pub use sections::section_laws;
pub use texts::text_laws;
