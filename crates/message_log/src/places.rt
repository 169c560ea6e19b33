//! Bytes at their places.
ghost use Rattle.std.specs.Prelude.{◌≡◌, ◌+◌, ◌≤◌, length, take, drop};
ghost use Rattle.message_log.specs.Layout.{put};

// The `N` bytes from a place on. A store has one of its own: a public function would have to answer
// for every place.
pub(crate) fn bytes_at<const N: usize>(bytes: &[u8], at: usize) -> [u8; N]
    requires { at + N ≤ length bytes.now }
    ensures { result ≡ take N (drop at bytes.now) }
{
    *bytes[at..].first_chunk().unwrap()
}

// Puts bytes at a place, over those that are there.
pub(crate) fn put(bytes: &mut [u8], at: usize, new: &[u8])
    requires { at + length new.now ≤ length bytes.old }
    ensures { bytes.new ≡ put at new.now bytes.old }
{
    bytes[at..at + new.len()].copy_from_slice(new);
}
