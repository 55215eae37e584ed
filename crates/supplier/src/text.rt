// The lines of a text, 97 bytes each as long as they are good.
ghost use Rattle.std.specs.Prelude.{◌≡◌};
ghost use Rattle.sending.specs.Text.{bad_line_lem};
ghost use Rattle.supplier.specs.Parts.{bad_paper};

// The first bad line, counted from 1. What is left of fewer than 97 bytes begins with a bad one.
pub(crate) fn first_bad(lines: &[u8]) -> Option<usize>
    ensures { bad_paper result ≡ bad_line_lem lines.now }
{
    let (whole, rest) = lines.as_chunks::<97>();
    for (before, line) in whole.iter().enumerate() {
        let read = house::line_symbols(*line);
        if read.is_none() {
            return Some(before + 1);
        }
    }
    if rest.is_empty() {
        return None;
    }
    Some(whole.len() + 1)
}
