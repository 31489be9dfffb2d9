// The system's numbers for the errors that the program makes itself or asks for, each under the system's name.
// Kept: numbers, since std makes an `Error` of one, and what is said of it is the system's text for that number.

// A descriptor is not open.
pub const EBADF: i32 = 9;

// An argument is not there, or a name has a zero among its bytes.
pub const EINVAL: i32 = 22;

// An argument or a name has too many bytes.
pub const ENAMETOOLONG: i32 = 36;

// A name is no text.
pub const EILSEQ: i32 = 84;
