//! Handing bytes to the caller.

ghost use Rattle.std.specs.Prelude.{◌≡◌};
ghost use Rattle.luddimpa.specs.Lookups.{copied};

/// Copies bytes to the front of the caller's memory if it has room for all of them.
pub(crate) fn copy_out(bytes: &[u8], out: &mut [u8])
    ensures { out.new ≡ copied bytes.now out.old }
{
    if bytes.len() <= out.len() {
        out[..bytes.len()].copy_from_slice(bytes);
    }
}
