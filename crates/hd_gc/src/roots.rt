// What registers and statics reference, where most may be null: a host may have many contexts that
// are not in use.
ghost use Rattle.std.specs.Prelude.{◌≡◌, ◌≤◌, ◌<◌, true, None, length, slice_index_or};
ghost use Rattle.hd_gc.specs.Inside.{AreFourNull, AreNull};

use hd_model::Addr;

// Whether a root is null.
#[inline(always)]
fn is_null(roots: &[Option<Addr>], at: usize) -> bool
    requires { at < length roots.now }
    ensures { result ≡ true → slice_index_or roots.now at None ≡ None }
{
    roots[at].is_none()
}

// Whether there are four roots from one on, and they are null.
#[inline(always)]
#[tactic(auto, using(crate::proofs::NullRoots::four_null))]
fn four_null(roots: &[Option<Addr>], at: usize) -> bool
    requires { at ≤ length roots.now }
    ensures { result ≡ true → AreFourNull roots.now at }
{
    roots.len() - at >= 4
        && is_null(roots, at)
        && is_null(roots, at + 1)
        && is_null(roots, at + 2)
        && is_null(roots, at + 3)
}

/// Where to go on from a root on: those before are null. It looks at four roots at a time.
#[inline(always)]
pub(crate) fn skip_null(roots: &[Option<Addr>], from: usize) -> usize
    requires { from ≤ length roots.now }
    ensures on { from ≤ result }
    ensures within { result ≤ length roots.now }
    ensures null { AreNull roots.now from result }
{
    let mut at = from;
    while four_null(roots, at) {
        at += 4;
    }
    at
}
