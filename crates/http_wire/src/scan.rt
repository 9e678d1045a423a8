//! Where a head ends, and how many lines it has.
ghost use Rattle.std.specs.Prelude.{◌≡◌, ◌≤◌, length, drop};
ghost use Rattle.http_model.specs.Requests.{line_end_length, head_length, line_ends};
ghost use Rattle.http_wire.specs.Scanning.{counted_from};

/// The length of the line end at the front: 1 for LF, 2 for CR LF.
fn line_end_length(bytes: &[u8]) -> Option<usize>
    ensures { result ≡ line_end_length bytes.now }
{
    match bytes {
        [b'\n', ..] => Some(1),
        [b'\r', b'\n', ..] => Some(2),
        _ => None,
    }
}

/// The length of the head, whose end is looked for from a place on.
pub fn head_length(bytes: &[u8], from: usize) -> Option<usize>
    requires { from ≤ length bytes.now }
    ensures { result ≡ counted_from from (head_length (drop from bytes.now)) }
{
    for i in from..bytes.len() {
        if bytes[i] != b'\n' {
            continue;
        }
        if let Some(n) = line_end_length(&bytes[i + 1..]) {
            return Some(i + 1 + n);
        }
    }
    None
}

/// The number of LF.
pub fn line_ends(bytes: &[u8]) -> usize
    ensures { result ≡ line_ends bytes.now }
{
    bytes.iter().filter(|b| **b == b'\n').count()
}
