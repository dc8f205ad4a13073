// Sizes that the text layer's memory has, in bytes.

// So much report memory is asked for each line of a text.
pub const LINE_ROOM: usize = 64;

// A line of more bytes is refused, whatever else it says.
const LONGEST: usize = 64;

// So much of a line is held at most.
pub const HELD_MOST: usize = LONGEST + 1;
