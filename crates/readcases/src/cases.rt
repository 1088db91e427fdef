// Where a case's line and its mesh end.
ghost use Rattle.std.specs.Prelude.{◌+◌, ◌≤◌, length};

const LINE_FEED: u8 = 10;

// The first line feed at or behind `at`, or the end.
pub(crate) fn line_end(s: &[u8], at: usize) -> usize
    requires { at ≤ length s.now }
    ensures { (at ≤ result) × (result ≤ length s.now) }
{
    for i in at..s.len() {
        if s[i] == LINE_FEED {
            return i;
        }
    }
    s.len()
}

// Is this the line feed before a line that begins with %%?
fn is_mark(s: &[u8], at: usize) -> bool
    requires { at + 3 ≤ length s.now }
{
    if s[at] != LINE_FEED {
        return false;
    }
    if s[at + 1] != b'%' {
        return false;
    }
    s[at + 2] == b'%'
}

// The line feed at or behind `at` before the next line that begins with %%, or the end.
pub(crate) fn text_end(s: &[u8], at: usize) -> usize
    requires { at ≤ length s.now }
    ensures { (at ≤ result) × (result ≤ length s.now) }
{
    for i in at..s.len().saturating_sub(2) {
        if is_mark(s, i) {
            return i;
        }
    }
    s.len()
}
