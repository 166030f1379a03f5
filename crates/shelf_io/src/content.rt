ghost use Rattle.std.specs.Prelude.{◌≡◌, ◌-◌, ◌++◌, ◌<◌, min, length, take, drop, replicate};
ghost use Rattle.shelf_io.specs.Content.{bytes_of};

/// The bytes that a shelf in memory holds under one name.
#[derive(Drop)]
pub enum Content {
    /// They are stored.
    Stored(Vec<u8>),
    /// One byte again and again, which is not stored.
    Repeated { byte: u8, count: u64 },
}

impl Content {
    /// Copies the bytes from that place on to the front of the buffer, as many as fit.
    pub fn copy_to(&self, at: u64, buf: &mut [u8]) -> usize
        ensures count { result ≡ min (length buf.old) (length (bytes_of self.now) - at) }
        ensures bytes { buf.new ≡ take result (drop at (bytes_of self.now)) ++ drop result buf.old }
    {
        match self {
            Content::Stored(bytes) => copy_stored(bytes.as_slice(), at as usize, buf),
            Content::Repeated { byte, count } => repeat(*byte, count.saturating_sub(at), buf),
        }
    }
}

/// Copies the bytes from that place on, as many as fit.
fn copy_stored(bytes: &[u8], at: usize, buf: &mut [u8]) -> usize
    ensures count { result ≡ min (length buf.old) (length bytes.now - at) }
    ensures bytes { buf.new ≡ take result (drop at bytes.now) ++ drop result buf.old }
{
    let left = &bytes[at.min(bytes.len())..];
    let count = buf.len().min(left.len());
    buf[..count].copy_from_slice(&left[..count]);
    count
}

/// Writes the byte so many times, or as often as it fits.
fn repeat(byte: u8, left: u64, buf: &mut [u8]) -> usize
    ensures count { result ≡ min (length buf.old) left }
    ensures bytes { buf.new ≡ replicate result byte ++ drop result buf.old }
{
    let count = buf.len().min(left as usize);
    buf[..count].fill(byte);
    count
}
