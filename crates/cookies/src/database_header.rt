//! The header of a SQLite file.
ghost use Rattle.std.specs.Prelude.{◌≡◌, ◌<◌, ◌^◌, slice_index};
ghost use Rattle.cookies.specs.DatabaseHeaders.{database_size, u32_at, page_size};

/// Returns a byte of a file, 0 beyond its end.
pub fn byte_at(contents: &[u8], at: usize) -> u8
    ensures { result ≡ slice_index contents.now at }
{
    contents.get(at).copied().unwrap_or(0)
}

/// Returns the size of the database that a file begins with, which may be larger. `None` if it is not a SQLite
/// file, or if its header does not have the size: an older SQLite that writes only counts its changes.
#[tactic(auto, unfolding(crate::specs::DatabaseHeaders::database_size))]
pub fn database_size(contents: &[u8]) -> Option<usize>
    ensures { result ≡ database_size contents.now }
{
    if !contents.starts_with(b"SQLite format 3\0") || u32_at(contents, 24) != u32_at(contents, 92) {
        return None;
    }
    Some((u32_at(contents, 28) as usize).saturating_mul(page_size(contents)))
}

// Returns the number of bytes of a page.
fn page_size(contents: &[u8]) -> usize
    ensures { result ≡ page_size contents.now }
{
    match u16::from_be_bytes([byte_at(contents, 16), byte_at(contents, 17)]) {
        1 => 65_536,
        size => usize::from(size),
    }
}

// Returns a number of four bytes, the highest first.
fn u32_at(contents: &[u8], at: usize) -> u32
    requires { at < 2 ^ 32 }
    ensures { result ≡ u32_at contents.now at }
{
    u32::from_be_bytes([
        byte_at(contents, at),
        byte_at(contents, at + 1),
        byte_at(contents, at + 2),
        byte_at(contents, at + 3),
    ])
}
