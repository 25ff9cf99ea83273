//! What a command tells at its end.

use rv_base::Text;

/// The status that the program ends with, and the text that it prints.
#[derive(Debug, Drop)]
pub struct Told {
    pub status: u8,
    pub text: Text,
}
