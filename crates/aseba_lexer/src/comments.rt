ghost use Rattle.std.specs.Prelude.{◌≡◌, ◌≤◌, length, IfSome};
ghost use Rattle.aseba_lexer.specs.Comments as comments;

/// How many bytes stand before the line's end.
pub fn line_len(text: &[u8]) -> usize
    ensures value { result ≡ comments.line_len text.now }
    ensures within { result ≤ length text.now }
{
    text.iter().take_while(|b| **b != b'\n').count()
}

/// How many bytes there are up to the first `*#`, these two included.
pub fn block_len(text: &[u8]) -> Option<usize>
    ensures value { result ≡ comments.block_len text.now }
    ensures within { IfSome result (λ n. n ≤ length text.now) }
{
    let mut passed = 0;
    let mut rest = text;
    while let [_, after @ ..] = rest {
        if rest.starts_with(b"*#") {
            return Some(passed + 2);
        }
        passed += 1;
        rest = after;
    }
    None
}
