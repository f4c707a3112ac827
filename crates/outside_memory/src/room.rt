/// Buffers that are taken beforehand: how many, and how many bytes each has room for.
#[derive(Clone, Copy)]
pub struct Pieces {
    pub count: usize,
    pub size: usize,
}

/// The room of a quiet post.
#[derive(Clone, Copy)]
pub struct PostRoom {
    /// How many acts it tells.
    pub acts: usize,
    /// How many children it starts and tells when they are given back.
    pub talks: usize,
    /// The buffers for bytes: one for each act that has bytes, two for each write into a user's
    /// file, and two for each file that is kept. A child may have as many bytes to send, and be
    /// sent as many, as one of these has room for.
    pub pieces: Pieces,
}
