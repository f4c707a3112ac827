//! The 22 rules of the policy by their names, as a denial carries them. A denial by one of the
//! rules 1 to 7 ends the session.

/// The session has made as many asks as the setup allows.
pub const ASKS_SPENT: u8 = 1;

/// A frame carries the flag of a descriptor.
pub const DESCRIPTOR_FLAG: u8 = 2;

/// A frame carries other flags.
pub const OTHER_FLAGS: u8 = 3;

/// A frame is of an unknown kind.
pub const UNKNOWN_KIND: u8 = 4;

/// A frame's body is none of its kind.
pub const BAD_PAYLOAD: u8 = 5;

/// The request is not for this phase, or there is no such session.
pub const NOT_IN_PHASE: u8 = 6;

/// The request may be permitted once only, and was.
pub const ONCE_ONLY: u8 = 7;

/// As many replies of the session were denied as the setup allows.
pub const TRIES_SPENT: u8 = 8;

/// There is no such user (no longer given; read in older logs).
pub const UNKNOWN_USER: u8 = 9;

/// The user is not enabled (no longer given; read in older logs).
pub const DISABLED_USER: u8 = 10;

/// The user has no password left (no longer given; read in older logs).
pub const CHAIN_SPENT: u8 = 11;

/// Another session holds the user.
pub const USER_HELD: u8 = 12;

/// The session no longer holds the user.
pub const HOLD_LOST: u8 = 13;

/// A reply has no reading.
pub const NO_READING: u8 = 14;

/// A reading of a reply was accepted before.
pub const PASSWORD_USED: u8 = 15;

/// No reading of a reply is the next password.
pub const NO_MATCH: u8 = 16;

/// The session has no such handle.
pub const NO_HANDLE: u8 = 17;

/// The handle's mode lacks what is asked.
pub const MODE_LACKING: u8 = 18;

/// The session has eight handles.
pub const HANDLES_SPENT: u8 = 19;

/// The user has no grant of the file.
pub const NOT_GRANTED: u8 = 20;

/// The grant's mode lacks what is asked.
pub const MODE_NOT_GRANTED: u8 = 21;

/// There is no information of the number.
pub const NO_INFORMATION: u8 = 22;
