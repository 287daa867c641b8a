//! The exit statuses of a program, the same ones for `luddimpa` and for `lsmsim`.

/// The exit status if the arguments, a script or a line are refused.
pub const REFUSED: u8 = 2;

/// The exit status after a read or write fault, if memory runs out, or after a wrong answer.
pub const FAILED: u8 = 1;
