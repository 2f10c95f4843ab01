// What stands first in the unread bytes.
ghost use Rattle.std.specs.Prelude.{◌≡◌, ◌≤◌, ◌==◌, length, position};
ghost use Rattle.uac_lines.specs.Looking.{ShowsFront, line_end};

/// The most bytes of a line, without its newline.
const MOST: usize = 4096;

/// What stands first in the unread bytes.
#[derive(Clone, Copy)]
pub enum Front {
    /// A line of so many bytes, and after it a newline.
    Line(usize),
    /// A line of more than 4,096 bytes.
    Long,
    /// A line of which a byte or the newline stands past the bytes that count.
    Past,
    /// All bytes, so many, which no newline ends yet.
    Open(usize),
}

// Where the first newline stands.
fn find_newline(bytes: &[u8]) -> Option<usize>
    ensures { result ≡ position (λ b. b == 10) bytes.now }
{
    bytes.iter().position(|b| *b == b'\n')
}

// Where the first newline stands, or the length where none does. The first `searched` bytes have none.
fn find_end(bytes: &[u8], searched: usize) -> usize
    requires known { searched ≤ line_end bytes.now }
    requires there { searched ≤ length bytes.now }
    ensures { result ≡ line_end bytes.now }
{
    match find_newline(&bytes[searched..]) {
        Some(following) => searched + following,
        None => bytes.len(),
    }
}

/// What stands first in `bytes`, of which `spare` count and the first `searched` have no newline.
pub fn look(bytes: &[u8], searched: usize, spare: usize) -> Front
    requires known { searched ≤ line_end bytes.now }
    requires counted { searched ≤ spare }
    ensures { ShowsFront spare bytes.now result }
{
    let counted = &bytes[..bytes.len().min(spare)];
    let size = find_end(counted, searched);
    if size > MOST {
        Front::Long
    } else if size < counted.len() {
        Front::Line(size)
    } else if counted.len() < bytes.len() {
        Front::Past
    } else {
        Front::Open(size)
    }
}
