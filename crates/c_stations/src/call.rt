//! A call of the device that a log is kept on.
ghost use Rattle.std.specs.Prelude.{◌≡◌, ◌≤◌, length, take};
ghost use Rattle.c_stations.specs.Calls.{bytes_of};

/// The most bytes of one write.
pub const WIDTH: usize = 256;

/// A write: where in the file it begins, how many bytes it has, and the bytes, of which the rest means nothing.
#[derive(Clone, Copy)]
pub struct Piece {
    pub at: u64,
    pub count: usize,
    pub bytes: [u8; 256],
}

/// A write, or a sync of what was written.
#[derive(Clone, Copy)]
pub enum Call {
    Write(Piece),
    Sync,
}

impl Piece {
    /// The bytes.
    pub fn as_slice(&self) -> &[u8]
        ensures { result.now ≡ take self.now.count self.now.bytes }
    {
        &self.bytes[..self.count.min(WIDTH)]
    }
}

impl Call {
    /// The bytes of a write, and none of a sync.
    pub fn bytes(&self) -> &[u8]
        ensures { result.now ≡ bytes_of self.now }
    {
        match self {
            Call::Write(piece) => piece.as_slice(),
            Call::Sync => &[],
        }
    }
}

/// The write of these bytes.
pub(crate) fn piece_of(at: u64, bytes: &[u8]) -> Piece
    requires { length bytes.now ≤ 256 }
    ensures at { result.at ≡ at }
    ensures count { result.count ≡ length bytes.now }
    ensures bytes { take result.count result.bytes ≡ bytes.now }
{
    let mut whole = [0; WIDTH];
    whole[..bytes.len()].copy_from_slice(bytes);
    Piece {
        at,
        count: bytes.len(),
        bytes: whole,
    }
}
