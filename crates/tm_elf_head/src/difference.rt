// Where two files differ.
ghost use Rattle.std.specs.Prelude.{◌≡◌, ◌<◌, is_some};
ghost use Rattle.tm_elf_head.specs.Differences.{first_difference as first, differ as are_different};

/// The first place at which two files differ, or the shorter length where one begins with the other; none where they
/// are the same.
#[tactic(auto, using(crate::proofs::DifferenceLemmas::ends_here, crate::proofs::DifferenceLemmas::left_ends, crate::proofs::DifferenceLemmas::differs_here), unfolding(crate::specs::Differences::difference_from))]
pub fn first_difference(a: &[u8], b: &[u8]) -> Option<u64>
    ensures { result ≡ first a.now b.now }
{
    let mut at = 0;
    while at < a.len() {
        if at >= b.len() {
            return Some(at as u64);
        }
        if a[at] != b[at] {
            return Some(at as u64);
        }
        at += 1;
    }
    if at < b.len() {
        return Some(at as u64);
    }
    None
}

/// Whether two lists of bytes differ.
pub fn differ(a: &[u8], b: &[u8]) -> bool
    ensures { result ≡ are_different a.now b.now }
{
    first_difference(a, b).is_some()
}
