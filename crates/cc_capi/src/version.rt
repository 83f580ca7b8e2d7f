//! Which library this is, for those who link it.

/// Its version, 0.4.0: a million times the first number, a thousand times the second, and the third. It changes with
/// everything that crosses the border, and with the meaning of a call.
pub const VERSION: u32 = 4_000;
