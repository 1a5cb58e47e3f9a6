// What a call answers. The header has the same numbers.

/// Done.
pub const OK: u32 = 0;
/// There is none: the ring is empty, or the image isn't whole.
pub const NONE: u32 = 1;
/// The ring or the queue has no free place.
pub const FULL: u32 = 2;
/// The doorbell, or the place that was told, doesn't take this value.
pub const BAD_DOORBELL: u32 = 3;
/// The numbers of the struct aren't those of a ring.
pub const BAD_RING: u32 = 4;
/// A number of the struct is out of its range.
pub const BAD_FIELD: u32 = 5;
/// Byte 0 is the opcode of no admin command.
pub const BAD_OPCODE: u32 = 6;
/// Byte 40 is the selector of no command of this opcode.
pub const BAD_SELECT: u32 = 7;
/// A part of an image begins neither at byte 0 nor where the bytes fed end.
pub const BAD_SEQUENCE: u32 = 8;
/// A part passes the image's end, or there is more than is taken.
pub const TOO_LONG: u32 = 9;
/// No image goes on with the byte that is told.
pub const BAD_IMAGE: u32 = 10;
/// The struct isn't one of parts that were fed.
pub const BAD_PARTS: u32 = 11;
/// There is no memory.
pub const OUT_OF_MEMORY: u32 = 12;
/// The text doesn't begin with a script.
pub const BAD_SCRIPT: u32 = 13;
/// A line of the transcript isn't the form of a line that may come there.
pub const WRONG_FORM: u32 = 14;
/// A line of the transcript is an event that isn't legal where it stands.
pub const WRONG_LEGAL: u32 = 15;
/// The transcript ends, and some lane isn't complete.
pub const WRONG_COMPLETE: u32 = 16;
/// The struct isn't one of a queue of so many cells.
pub const BAD_QUEUE: u32 = 17;
/// The queue wasn't created, or is deleted.
pub const NOT_LIVE: u32 = 18;
/// The queue is live already.
pub const LIVE: u32 = 19;
