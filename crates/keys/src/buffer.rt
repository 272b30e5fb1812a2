ghost use Rattle.std.specs.Prelude.{◌≡◌, ◌+◌, ◌≤◌, ◌++◌, length, drop};

/// Writes `front` and then `back` to the beginning of `out`.
pub(crate) fn lay(out: &mut [u8], front: &[u8], back: &[u8])
    requires { length front.now + length back.now ≤ length out.old }
    ensures { out.new ≡ (front.now ++ back.now) ++ drop (length front.now + length back.now) out.old }
{
    let middle = front.len();
    let end = middle + back.len();
    out[0..middle].copy_from_slice(front);
    out[middle..end].copy_from_slice(back);
}
