ghost use Rattle.std.specs.Prelude.{◌+◌, ◌≤◌, length};
ghost use Rattle.cckd_base.specs.Put.{IsPut};

/// Puts bytes into a buffer from a place on, and answers where they end.
pub fn put_bytes(buffer: &mut [u8], at: usize, bytes: &[u8]) -> usize
    requires { at + length bytes.now ≤ length buffer.old }
    ensures { IsPut at result bytes.now buffer.old buffer.new }
{
    let end = at + bytes.len();
    buffer[at..end].copy_from_slice(bytes);
    end
}
