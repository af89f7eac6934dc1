// The front that two texts share.

ghost use Rattle.std.specs.Prelude.{◌≡◌, ◌≤◌, length};
ghost use Rattle.trace_text.specs.Formats as formats;

/// The greatest number of bytes with which both texts begin.
pub fn common_front(text: &[u8], other: &[u8]) -> usize
    ensures front { result ≡ formats.common_front text.now other.now }
    ensures within { result ≤ length other.now }
{
    let end = text.len().min(other.len());
    for i in 0..end {
        if text[i] != other[i] {
            return i;
        }
    }
    end
}
