//! What the programs say of an error.
#![tactic(auto)]

use std::fmt;
use std::fmt::{InlineText, Write};
use std::io::Error;

fn without_number(text: &str) -> &str {
    match text.split_once(" (os error ") {
        Some((front, _)) => front,
        None => text,
    }
}

/// An error in the system's words, without the number that std adds to them.
#[derive(Drop)]
pub struct Words(pub Error);

impl fmt::Display for Words {
    fn fmt<W: fmt::Write>(&self, f: &mut fmt::Formatter<W>) -> fmt::Result {
        let text = InlineText::<256>::of(&self.0);
        f.write_str(without_number(text.as_str()))
    }
}
