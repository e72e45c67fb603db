//! What a text is written of: tokens, and blanks between them; where their bytes are read as these tokens; and the
//! functions that put them behind other bytes.
#![tactic(auto)]

mod bytes;
mod laws;
mod put;
mod spelling;

pub use laws::{pieces_are_read, tokens_are_proper};
pub use put::{
    put_blank, put_constant, put_int32, put_int64, put_look, put_name, put_text, put_text_first,
    put_text_last, put_text_middle, put_variable,
};
pub use spelling::spelling_of;

#[cfg(test)]
mod tests;
