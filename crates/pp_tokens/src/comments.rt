//! How long a comment is.

ghost use Rattle.std.specs.Prelude.{◌≡◌, ◌≤◌, length, false, IfSome};
ghost use Rattle.pp_tokens.specs.Comments.{line_len, block_len};

use crate::characters::begins;

/// How many characters stand before the end of the line.
pub(crate) fn line_len(cs: &[char]) -> usize
    ensures value { result ≡ line_len cs.now }
    ensures within { result ≤ length cs.now }
{
    cs.iter().take_while(|c| **c != '\n').count()
}

/// How many characters stand up to the end of the block comment that is open, with that end.
pub(crate) fn block_len(cs: &[char]) -> Option<usize>
    ensures value { result ≡ block_len 1 false cs.now }
    ensures within { IfSome result (λ n. n ≤ length cs.now) }
{
    let mut depth: usize = 1;
    let mut passed = false;
    for i in 0..cs.len() {
        let c = cs[i];
        let rest = &cs[i + 1..];
        let opens = begins(c, rest, '/', '*');
        let closes = begins(c, rest, '*', '/');
        if passed {
            passed = false;
        } else if opens {
            depth += 1;
            passed = true;
        } else if closes {
            if depth == 1 {
                return Some(i + 2);
            }
            depth -= 1;
            passed = true;
        }
    }
    None
}
