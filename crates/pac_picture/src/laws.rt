//! What pictures are made with: the places at which two lists of bytes differ, found sixteen at a time.

ghost use Rattle.std.specs.Prelude.{◌≡◌, ◌≤◌, ◌<◌, ◌+◌, ◌*◌, ◌/◌, ◌%◌, ◌^◌, ℕ};
ghost use Rattle.std.specs.Prelude.{◌==◌, if◌then◌else◌, Bool, true, false, not, length};
ghost use Rattle.std.specs.Prelude.{slice_index, slice_index_or, EachIndex};
ghost use Rattle.pac_picture.specs.Laws.{StaleCellsAreDrawn};

use std::simd::prelude::*;

/// Sixteen bits that say at which of sixteen places two lists differ, from a place on in each.
#[inline]
pub(crate) fn sixteen(now: &[u8], from: usize, shadow: &[u8], start: usize) -> u64
    requires now { from + 16 ≤ length now.now }
    requires shadow { start + 16 ≤ length shadow.now }
    ensures { (k : ℕ) → k < 16 → result / 2 ^ k % 2
        ≡ (if slice_index now.now (from + k) == slice_index shadow.now (start + k) then 0 else 1) }
{
    u8x16::from_slice(&now[from..])
        .simd_ne(u8x16::from_slice(&shadow[start..]))
        .to_bitmask()
}

/// Whether one of sixteen bits is set.
#[inline(always)]
fn is_set(bits: u64, k: usize) -> bool
    requires { k < 16 }
    ensures { result ≡ (bits / 2 ^ k % 2 == 1) }
{
    (bits >> k) % 2 == 1
}

/// Writes sixteen bits to a mask, from a place on.
#[inline]
fn spread(bits: u64, mask: &mut [bool], start: usize)
    requires { start + 16 ≤ length mask.old }
    ensures within { (k : ℕ) → k < 16 → slice_index_or mask.new (start + k) false
        ≡ (bits / 2 ^ k % 2 == 1) }
    ensures before { (k : ℕ) → k < start → slice_index_or mask.new k false
        ≡ slice_index_or mask.old k false }
{
    for k in 0..16usize {
        mask[start + k] = is_set(bits, k);
    }
}

/// Says at each place whether two lists of bytes differ there: lane by lane, and one by one where fewer than a
/// vector's lanes are left.
pub fn changed(now: &[u8], shadow: &[u8], mask: &mut [bool])
    requires shadow { length shadow.now ≡ length now.now }
    requires mask { length mask.old ≡ length now.now }
    ensures { EachIndex now.now (λ place. slice_index_or mask.new place false
        ≡ not (slice_index now.now place == slice_index shadow.now place)) }
{
    let lanes = now.len() / 16;
    changed_lanes(now, shadow, mask, lanes);
    for place in 16 * lanes..now.len() {
        mask[place] = now[place] != shadow[place];
    }
}

/// Says at each place of so many vectors, sixteen places each, whether two lists of bytes differ there.
#[inline]
fn changed_lanes(now: &[u8], shadow: &[u8], mask: &mut [bool], vectors: usize)
    requires now { 16 * vectors ≤ length now.now }
    requires shadow { 16 * vectors ≤ length shadow.now }
    requires mask { 16 * vectors ≤ length mask.old }
    ensures { (place : ℕ) → place < 16 * vectors → slice_index_or mask.new place false
        ≡ not (slice_index now.now place == slice_index shadow.now place) }
{
    for vector in 0..vectors {
        let bits = sixteen(now, 16 * vector, shadow, 16 * vector);
        spread(bits, mask, 16 * vector);
    }
}

/// Where all cells count as differing, composing the picture draws all of them, and composing a line those of its row.
pub fn stale_cells_are_drawn()
    ensures { StaleCellsAreDrawn }
{}
