// The lines of a text.

ghost use Rattle.std.specs.Prelude.{◌≡◌, ◌∷◌, ◌<◌, IfSome, length};
ghost use Rattle.std.specs.List.{position};
ghost use Rattle.std.specs.Str.Lines.{lines, strip_carriage_return};
ghost use Rattle.script_text.specs.LineEnds.{is_line_feed};
ghost use Rattle.script_text.specs.Written.{is_skipped};

// Whether a line says nothing: it is empty, or its first byte is `#`.
pub fn is_skipped(line: &[u8]) -> bool
    ensures { result ≡ is_skipped line.now }
{
    match line {
        [] => true,
        [first, ..] => *first == b'#',
    }
}

// A line that ends with LF, without a CR before that.
fn without_carriage_return(line: &[u8]) -> &[u8]
    ensures { result.now ≡ strip_carriage_return line.now }
{
    match line {
        [front @ .., b'\r'] => front,
        _ => line,
    }
}

// The place of the first LF.
fn line_feed(text: &[u8]) -> Option<usize>
    ensures place { result ≡ position is_line_feed text.now }
    ensures within { IfSome result (λ n. n < length text.now) }
{
    text.iter().position(|byte| *byte == b'\n')
}

// The first line of a text that isn't empty, and what stands behind it.
#[tactic(auto, using(crate::proofs::FirstLines::last_line, crate::proofs::FirstLines::line_before))]
pub fn first_line(text: &[u8]) -> (&[u8], &[u8])
    requires { 0 < length text.now }
    ensures line { lines text.now ≡ result.0.now ∷ lines result.1.now }
    ensures fewer { length result.1.now < length text.now }
{
    match line_feed(text) {
        None => (text, &[]),
        Some(count) => {
            let (line, _) = text.split_at(count);
            let (_, behind) = text.split_at(count + 1);
            (without_carriage_return(line), behind)
        }
    }
}
