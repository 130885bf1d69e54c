// Parts of bytes that have a fixed length.
ghost use Rattle.std.specs.Prelude.{◌≡◌, ◌+◌, length, take, drop, if◌then◌else◌, Some, None, nat_le};
ghost use Rattle.std.specs.Option.{option_map};

// The N bytes from a place on, unless they are not all there.
pub fn chunk_at<const N: usize>(bytes: &[u8], at: usize) -> Option<&[u8; N]>
    ensures { option_map (λ x. x.now) result ≡ (if nat_le (at + N) (length bytes.now) then Some (take N (drop at bytes.now)) else None) }
{
    bytes.get(at..)?.first_chunk::<N>()
}
