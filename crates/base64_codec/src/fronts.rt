// Writing to the front of a buffer.
ghost use Rattle.std.specs.Prelude.{◌≡◌, ◌≤◌, length};
ghost use Rattle.event.specs.Fronts.{front};

// Writes a few bytes to the front of `out`.
pub(crate) fn put<const N: usize>(bytes: [u8; N], out: &mut [u8])
    requires { N ≤ length out.old }
    ensures { out.new ≡ front bytes.entry out.old }
{
    out[..N].copy_from_slice(&bytes);
}
