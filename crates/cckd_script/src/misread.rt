/// Why a line has a refusal in place of a call.
#[derive(Clone, Copy, Debug, PartialEq, Eq)]
pub enum Misreading {
    /// The token at this column, counted in bytes from 1, is wrong or missing.
    LineFault { column: u32 },
    /// The line has more than 131,072 bytes.
    LineTooLong,
    /// The first byte past the script's limit stands in the line.
    ScriptTooLong,
}
